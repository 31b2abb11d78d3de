// The kinds of records: the byte that names each, and how many bytes its body has.
ghost use Rattle.std.specs.Prelude.{◌≡◌};
ghost use Rattle.records.specs.Site.{kind_of, body as body_of};
ghost use Rattle.records.specs.View.{named_of, kind_view};

#[derive(Clone, Copy, Debug, PartialEq, Eq)]
pub enum Kind {
    N,
    C,
    B,
    E,
    T,
    J,
    G,
}

impl Kind {
    // The kind that a byte names. No TryFrom: a byte that names none is no failure here, and who takes the record says what is wrong with it.
    #[tactic(auto, unfolding(crate::specs::Site::kind_of))]
    pub fn of(byte: u8) -> Option<Kind>
        ensures { named_of result ≡ kind_of byte }
    {
        match byte {
            b'N' => Some(Kind::N),
            b'C' => Some(Kind::C),
            b'B' => Some(Kind::B),
            b'E' => Some(Kind::E),
            b'T' => Some(Kind::T),
            b'J' => Some(Kind::J),
            b'G' => Some(Kind::G),
            _ => None,
        }
    }

    // How many bytes its body has. Two kinds have bodies of one length, so these can't be the cases' own numbers.
    pub(crate) fn body(self) -> usize
        ensures { result ≡ body_of (kind_view self) }
    {
        match self {
            Kind::N => 2,
            Kind::C => 1,
            Kind::B => 4,
            Kind::E => 8,
            Kind::T => 6,
            Kind::J => 4,
            Kind::G => 0,
        }
    }
}
