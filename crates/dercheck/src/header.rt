//! What the identifier and length octets of an unfinished element say.

ghost use Rattle.std.specs.Prelude.{◌≡◌, ◌≤◌, List, ℕ, length, MatchOption, MatchResult};
ghost use Rattle.asn1.specs.declared.Tag.{Tag};
ghost use Rattle.asn1.specs.Tag.{leading_tag};
ghost use Rattle.dercheck.specs.Frames.{HoldsLength, IsSplit, Needs, IsFault, Says};

use asn1::{ParseErrorKind, Tag, strip_tlv};

/// How many octets of the longest header are looked at: the first of a tag, eighteen of its number, and one that
/// decides.
pub const MAX_HEADER: usize = 20;

/// What the octets of a header say.
pub enum Header {
    /// The identifier or length octets go on.
    Open {
        /// How many octets framing needs at least.
        needed: usize,
    },
    /// The identifier and length octets are all there.
    Whole {
        /// How many identifier octets there are.
        tag: usize,
        /// How many contents octets there are in all.
        length: usize,
        /// How many of these are missing.
        needed: usize,
    },
    /// No element begins with these octets.
    Faulty(ParseErrorKind),
}

/// How many identifier octets there are, and how many octets follow the length octets, if these are all there.
fn header_parts(octets: &[u8]) -> Option<(usize, usize)>
    ensures { MatchOption result
        ((tag : Tag) → (after : List ℕ) → leading_tag octets.now ≡ Ok (tag, after)
        → ¬ HoldsLength after)
        (λ counts. IsSplit octets.now counts.0 counts.1) }
{
    let Ok((_, after)) = Tag::from_bytes(octets) else {
        return None;
    };
    if after.is_empty() {
        return None;
    }
    let further = usize::from(after[0].saturating_sub(0x80));
    if after.len() <= further {
        return None;
    }
    Some((octets.len() - after.len(), after.len() - 1 - further))
}

/// How many octets framing needs after these, or its error.
fn needed_behind(octets: &[u8]) -> Result<usize, ParseErrorKind>
    ensures { MatchResult result (Needs octets.now) (IsFault octets.now) }
{
    match strip_tlv(octets) {
        Ok(_) => Ok(0),
        Err(e) => match e.kind() {
            ParseErrorKind::ShortData { needed } => Ok(needed),
            kind => Err(kind),
        },
    }
}

/// What the octets of a header say, which may be unfinished. The caller has to prove that there are at most
/// [`MAX_HEADER`] (`requires`).
pub fn read_header(octets: &[u8]) -> Header
    requires { length octets.now ≤ MAX_HEADER }
    ensures { Says result octets.now }
{
    let needed = match needed_behind(octets) {
        Ok(needed) => needed,
        Err(kind) => return Header::Faulty(kind),
    };
    match header_parts(octets) {
        None => Header::Open { needed },
        Some((tag, content)) => Header::Whole {
            tag,
            length: needed + content,
            needed,
        },
    }
}
