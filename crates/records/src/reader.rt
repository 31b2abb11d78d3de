// A reader: the lent file and its place. It reads numbers past its place, and takes one record after another into a draft.
ghost use Rattle.std.specs.Prelude.{◌≡◌, ◌+◌, ◌<◌, leb, length, IfSome};
ghost use Rattle.records.specs.Site.{byte_at, word_at, long_at, signed as signed_of, kind_of};
ghost use Rattle.records.specs.View.{named_of};

use crate::kind::Kind;

// Four bytes as a signed number.
#[tactic(auto, using(crate::proofs::Numbers::signed_read))]
pub fn signed(x: u32) -> i64
    ensures { result ≡ signed_of x }
{
    i64::from(x.cast_signed())
}

#[derive(Clone, Copy, Debug, PartialEq, Eq)]
pub struct Reader<'a> {
    pub file: &'a [u8],
    pub place: usize,
}

impl<'a> Reader<'a> {
    // At the file's first record.
    pub fn open(file: &'a [u8]) -> Reader<'a>
        ensures { (result.file ≡ file.entry) × (result.place ≡ 0) }
    {
        Reader { file, place: 0 }
    }

    // The byte k past its place; a byte past the file's end reads as 0.
    pub(crate) fn byte(&self, k: usize) -> u8
        ensures { result ≡ byte_at self.now.file.now (self.now.place + k) }
    {
        let Some(i) = self.place.checked_add(k) else {
            return 0;
        };
        self.file.get(i).copied().unwrap_or(0)
    }

    // The two bytes k past its place.
    #[tactic(auto, using(crate::proofs::Numbers::word_read))]
    pub fn word(&self, k: u16) -> u16
        ensures { result ≡ word_at self.now.file.now (self.now.place + k) }
    {
        let k = usize::from(k);
        u16::from_le_bytes([self.byte(k), self.byte(k + 1)])
    }

    // The four bytes k past its place.
    #[tactic(auto, using(crate::proofs::Numbers::long_read))]
    pub fn long(&self, k: u8) -> u32
        ensures { result ≡ long_at self.now.file.now (self.now.place + k) }
    {
        let k = usize::from(k);
        u32::from_le_bytes([
            self.byte(k),
            self.byte(k + 1),
            self.byte(k + 2),
            self.byte(k + 3),
        ])
    }

    // The four bytes k past its place, as a signed number.
    pub fn signed(&self, k: u8) -> i64
        ensures { result ≡ signed_of (long_at self.now.file.now (self.now.place + k)) }
    {
        signed(self.long(k))
    }

    // The kind of the record at its place. Past the file's end there is none.
    #[tactic(auto, using(crate::proofs::Taken::named_here))]
    pub fn kind(&self) -> Option<Kind>
        ensures said { named_of result ≡ kind_of (byte_at self.now.file.now self.now.place) }
        ensures here { IfSome result (λ k. self.now.place < length self.now.file.now) }
    {
        Kind::of(self.byte(0))
    }

    // No record is left.
    pub fn at_end(&self) -> bool
        ensures { result ≡ leb (length self.now.file.now) self.now.place }
    {
        self.file.len() <= self.place
    }
}
