// Bytes and numbers put after what a text holds, cut at the buffer's end.
ghost use Rattle.std.specs.Prelude.{◌≡◌, ◌≤◌, length};
ghost use Rattle.printed.specs.Page.{page, with_text};
ghost use Rattle.printed.specs.Written.{Puts};

use crate::text::Text;
use itoa::{Buffer, Integer};

// Some bytes after the first `len`: how many are then in use.
#[tactic(auto, unfolding(crate::specs::Page::with_text))]
fn put_at(out: &mut [u8], len: usize, text: &[u8]) -> usize
    requires { len ≤ length out.old }
    ensures put { page out.new result ≡ with_text text.now (page out.old len) }
    ensures within { result ≤ length out.new }
{
    let count = text.len().min(out.len() - len);
    let end = len + count;
    out[len..end].copy_from_slice(&text[..count]);
    end
}

impl<'a> Text<'a> {
    pub(crate) fn put(&mut self, text: &[u8])
        ensures { Puts text.now self.old self.new }
    {
        self.len = put_at(self.out, self.len, text);
    }

    // A number in decimal.
    pub(crate) fn put_number<I: Integer>(&mut self, x: I)
        ensures { Puts (I.text x) self.old self.new }
    {
        let mut digits = Buffer::new();
        self.put(digits.format(x).as_bytes());
    }
}
