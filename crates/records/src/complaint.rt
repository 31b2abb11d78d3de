// Why a site file is refused, with document 01's numbers.
ghost use Rattle.std.specs.Prelude.{◌≡◌};
ghost use Rattle.records.specs.Site.{complaint_number};
ghost use Rattle.records.specs.View.{complaint_of};

#[derive(Clone, Copy, Debug, PartialEq, Eq)]
pub enum Complaint {
    Nodes = 1,
    Edges = 2,
    Buffer = 6,
    Kind = 21,
    Cut = 22,
    Order = 23,
    Time = 24,
    Long = 25,
}

impl Complaint {
    // Its number in document 01.
    pub fn number(self) -> u8
        ensures { result ≡ complaint_number (complaint_of self) }
    {
        self as u8
    }
}
