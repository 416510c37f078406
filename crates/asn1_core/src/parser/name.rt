//! Names that last as long as the program, kept without a lifetime.
//!
//! A generic reader may not return a type that names `'static`, so that an error can't keep a `&'static str`. The
//! error keeps where the name is and how many octets the name has. For contracts alone, the error also keeps the right
//! to read these octets for good. The two functions of this right are the only ones of the crate with a raw pointer.

ghost use Rattle.std.specs.Prelude.{◌≡◌, ℕ, ◌^◌, ◌<◌, List, length};
ghost use denote.RawPtr.{Ptr};
ghost use Rattle.asn1_core.specs.Lasting.{IsPlaced, lasting};

use std::marker::Model;
use std::slice;

/// The right to read these octets, which are at `start`, for good.
#[derive(Drop)]
struct Lasting {
    ghost start: { Ptr },
    ghost octets: { List ℕ },
    ghost placed: { IsPlaced start × (length octets < 2 ^ 63) },
}

impl Model for Lasting {
    ghost also_owns = { λ l. lasting l.start l.octets };

    ghost also_shares = { λ l _ _. lasting l.start l.octets };
}

impl Lasting {
    /// Where the octets are, and the right to read them.
    fn new(octets: &'static [u8]) -> (*const u8, Lasting)
        ensures { (result.1.start ≡ result.0) × (result.1.octets ≡ octets.now) }
    {
        (octets.as_ptr(), Lasting {})
    }

    /// The octets, which aren't copied.
    fn read(&self, start: *const u8, count: usize) -> &[u8]
        requires { (start ≡ self.now.start) × (count ≡ length self.now.octets) }
        ensures { result.now ≡ self.now.octets }
    {
        unsafe { slice::from_raw_parts(start, count) }
    }
}

/// The name of a field, which lasts as long as the program.
#[derive(Drop)]
pub struct FieldName {
    start: *const u8,
    count: usize,
    lasting: Lasting,
}

impl Model for FieldName {
    ghost use Rattle.std.specs.Prelude.{◌≡◌, ℕ, List, length, IsUtf8};

    ghost Value = { List ℕ };

    ghost view = { λ n. n.lasting.octets };

    ghost invariant = { λ n. (n.start ≡ n.lasting.start) × (n.count ≡ length n.lasting.octets)
        × IsUtf8 n.lasting.octets };
}

// The octets are never changed, and nothing of them is freed.
unsafe impl Send for FieldName {}

unsafe impl Sync for FieldName {}

impl FieldName {
    /// Keeps the name. Allocates nothing.
    pub(super) fn new(text: &'static str) -> FieldName
        ensures { result ≡ text.now }
    {
        let octets = text.as_bytes();
        let (start, lasting) = Lasting::new(octets);
        FieldName {
            start,
            count: octets.len(),
            lasting,
        }
    }

    /// The name.
    pub fn as_str(&self) -> &str
        ensures { result.now ≡ self.now }
    {
        unsafe { str::from_utf8_unchecked(self.lasting.read(self.start, self.count)) }
    }
}
