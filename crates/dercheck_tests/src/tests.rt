//! The replies to lines from outside, and a user's own type.

ghost use Rattle.std.specs.Prelude.{◌≡◌};
ghost use Rattle.asn1.specs.Der.{simple_der};
ghost use Rattle.dercheck_tests.specs.Code.{code_content};
ghost use Rattle.dercheck_tests.specs.LawsOf.{code_laws};

mod bag;
mod changed;
mod frames;
mod nested;
mod notice;
mod own_types;
mod parcel;
mod set_pair;
mod ticket;

use asn1::{
    Asn1Type, ParseError, ParseErrorKind, ParseResult, SimpleAsn1Readable, SimpleAsn1Writable, Tag,
    WriteBuf, WriteError, WriteResult,
};
use dercheck::{kinds, *};
use std::alloc::Global;
use std::test::Fail;
use testing::{all_same, are_invalid, both_ways, same, same_at};

/// Lines and the replies to them.
const LINES: &[(&str, &str)] = &[
    ("bool 0101ff", "ok 0101ff"),
    ("bool 0101FF", "ok 0101ff"),
    ("bool 010100", "ok 010100"),
    ("bool 010101", "err InvalidValue"),
    ("bool 0101ff00", "err ExtraData"),
    ("bool 018101ff", "err InvalidLength"),
    ("bool 0180", "err InvalidLength"),
    ("bool 1f1e00", "err InvalidTag"),
    (
        "bool 1f8fffffff7f00",
        "err UnexpectedTag universal 4294967295 primitive",
    ),
    ("bool e100", "err UnexpectedTag private 1 constructed"),
    ("bool 7e00", "err UnexpectedTag application 30 constructed"),
    ("bool 8000", "err UnexpectedTag context 0 primitive"),
    ("bool 020105", "err UnexpectedTag universal 2 primitive"),
    ("bool 0201", "err ShortData 1"),
    ("bool ", "err ShortData 1"),
    ("tlv 1f81800100", "ok 1f81800100"),
    ("tlv 0403616263", "ok 0403616263"),
    ("tlv 30000500", "err ExtraData"),
    ("tlv 04820010", "err InvalidLength"),
    ("tlv 048200", "err ShortData 1"),
    ("tlv 1f9080808000", "err InvalidTag"),
    ("tlv ", "err ShortData 1"),
    ("tlv", "bad line"),
    ("bool 0", "bad line"),
    ("BOOL 0101ff", "bad line"),
    ("bool", "bad line"),
    ("bool  0101ff", "bad line"),
    ("", "bad line"),
];

/// Lines with integers, and the replies to them.
const INTEGERS: &[(&str, &str)] = &[
    ("i8 020180", "ok 020180"),
    ("i8 0202ff7f", "err IntegerOverflow"),
    ("u8 020180", "err InvalidValue"),
    ("u8 020200ff", "ok 020200ff"),
    ("u8 02020100", "err IntegerOverflow"),
    ("i16 02028000", "ok 02028000"),
    ("i16 0203ff7fff", "err IntegerOverflow"),
    ("u16 020300ffff", "ok 020300ffff"),
    ("u16 0203010000", "err IntegerOverflow"),
    ("i32 02047fffffff", "ok 02047fffffff"),
    ("i32 02050080000000", "err IntegerOverflow"),
    ("u32 020500ffffffff", "ok 020500ffffffff"),
    ("u32 02050100000000", "err IntegerOverflow"),
    ("i64 02088000000000000000", "ok 02088000000000000000"),
    ("i64 0209008000000000000000", "err IntegerOverflow"),
    ("u64 020900ffffffffffffffff", "ok 020900ffffffffffffffff"),
    ("u64 0209010000000000000000", "err IntegerOverflow"),
    ("u64 0209ff7f00000000000000", "err InvalidValue"),
    ("u64 02020001", "err InvalidValue"),
    ("int 0200", "err InvalidValue"),
    ("int 02020001", "err InvalidValue"),
    ("int 0209ff7f00000000000000", "ok 0209ff7f00000000000000"),
    ("uint 0201ff", "err InvalidValue"),
    ("uint 02020080", "ok 02020080"),
    ("uint 0202007f", "err InvalidValue"),
    ("enum 0a0500ffffffff", "ok 0a0500ffffffff"),
    ("enum 0a050100000000", "err IntegerOverflow"),
    ("enum 0a01ff", "err InvalidValue"),
    ("enum 02010c", "err UnexpectedTag universal 2 primitive"),
];

/// Lines with octet strings, bit strings and object identifiers.
const STRINGS: &[(&str, &str)] = &[
    ("null 0500", "ok 0500"),
    ("null 0500ff", "err ExtraData"),
    ("null 050100", "err InvalidValue"),
    ("null", "bad line"),
    ("octets 0403616263", "ok 0403616263"),
    ("octets 0400", "ok 0400"),
    ("octets 030100", "err UnexpectedTag universal 3 primitive"),
    ("OCTETS 0400", "bad line"),
    ("bits 03020101", "err InvalidValue"),
    ("bits 0300", "err InvalidValue"),
    ("bits 030101", "err InvalidValue"),
    ("bits 0302017e", "ok 0302017e"),
    ("oid 06062A864886F70D", "ok 06062a864886f70d"),
    ("oid 060180", "err InvalidValue"),
    (
        "oid 064001010101010101010101010101010101010101010101010101010101010101010101010101010101010101010101010101010101010101010101010101010101",
        "err OidTooLong",
    ),
];

/// Lines with character strings.
const TEXTS: &[(&str, &str)] = &[
    ("utf8 0c02c328", "err InvalidValue"),
    ("utf8 0c05e282acc3a9", "ok 0c05e282acc3a9"),
    ("printable 130125", "err InvalidValue"),
    (
        "printable 130b5465737420557365722031",
        "ok 130b5465737420557365722031",
    ),
    ("ia5 16017f", "ok 16017f"),
    ("ia5 160180", "err InvalidValue"),
    ("visible 1a017f", "err InvalidValue"),
    ("visible 1a02207e", "ok 1a02207e"),
    ("bmp 1e02d800", "err InvalidValue"),
    ("bmp 1e04d800dc00", "ok 1e04d800dc00"),
    ("bmp 1e06006100620063", "ok 1e06006100620063"),
    ("universal 1c040010ffff", "ok 1c040010ffff"),
    ("universal 1c0400110000", "err InvalidValue"),
    ("universal 1e00", "err UnexpectedTag universal 30 primitive"),
];

/// Lines with times.
const TIMES: &[(&str, &str)] = &[
    (
        "utctime 170d3530303130313030303030305a",
        "ok 170d3530303130313030303030305a",
    ),
    (
        "utctime 170d3439313233313233353935395a",
        "ok 170d3439313233313233353935395a",
    ),
    (
        "utctime 170d3039313131353232353631365a",
        "ok 170d3039313131353232353631365a",
    ),
    ("utctime 170d3233303232393030303030305a", "err InvalidValue"),
    ("utctime 170d3439313233313233353936305a", "err InvalidValue"),
    (
        "x509time 180f32303030303232393030303030305a",
        "ok 180f32303030303232393030303030305a",
    ),
    (
        "x509time 180f31393030303232393030303030305a",
        "err InvalidValue",
    ),
    (
        "x509time 180f30303030303130313030303030305a",
        "ok 180f30303030303130313030303030305a",
    ),
    (
        "x509time 180f31393730303130313030303030305a",
        "ok 180f31393730303130313030303030305a",
    ),
    (
        "x509time 181132303039303130313030303030302e355a",
        "err InvalidValue",
    ),
    (
        "gentime 181132303039303130313030303030302e355a",
        "ok 181132303039303130313030303030302e355a",
    ),
    (
        "gentime 181932303039303130313030303030302e3030303030303030315a",
        "ok 181932303039303130313030303030302e3030303030303030315a",
    ),
    (
        "gentime 181132303039303130313030303030302e305a",
        "err InvalidValue",
    ),
    (
        "gentime 180f32303039303130313234303030305a",
        "err InvalidValue",
    ),
    (
        "gentime 181431393931303530363233343534302e313233305a",
        "err InvalidValue",
    ),
    (
        "gentime 181031393931303530363233343534302e5a",
        "err InvalidValue",
    ),
    (
        "gentime 181a31393931303530363233343534302e313233343536373839315a",
        "err InvalidValue",
    ),
    (
        "gentime 181931393931303530363233343534302e3030303030313233345a",
        "ok 181931393931303530363233343534302e3030303030313233345a",
    ),
    (
        "gentime 181132303039313131353232353631362e315a",
        "ok 181132303039313131353232353631362e315a",
    ),
    (
        "gentime 181932303039313131353232353631362e3939393939393939395a",
        "ok 181932303039313131353232353631362e3939393939393939395a",
    ),
];

/// Lines with sequences and sets.
const LISTS: &[(&str, &str)] = &[
    ("seq 30020500", "ok 30020500"),
    ("seq 3000ff", "err ExtraData"),
    ("seq 1000", "err UnexpectedTag universal 16 primitive"),
    ("seqof-int 3006020107020105", "ok 3006020107020105"),
    ("seqof-int 3000", "ok 3000"),
    ("seqof-int 30050201050201", "err ShortData 1"),
    (
        "seqof-int 3003010100",
        "err UnexpectedTag universal 1 primitive",
    ),
    ("seqof-int 300402020001", "err InvalidValue"),
    ("set 31060201050101ff", "err InvalidSetOrdering"),
    ("set 3103020205", "err ShortData 1"),
    ("set 31060101ff020105", "ok 31060101ff020105"),
    ("set 3104a0008100", "ok 3104a0008100"),
    ("set 31048100a000", "err InvalidSetOrdering"),
    ("set 3106020107020105", "ok 3106020107020105"),
    ("set 31099fff7f009f81800000", "ok 31099fff7f009f81800000"),
    ("setof-int 3106020107020105", "err InvalidSetOrdering"),
    ("setof-int 31060201070101ff", "err InvalidSetOrdering"),
    ("setof-int 3106020105020105", "ok 3106020105020105"),
    (
        "setof-int 31060101ff020105",
        "err UnexpectedTag universal 1 primitive",
    ),
];

/// Lines with hex in letters of either case, and with octets that are no digits: those beside the digits, and others in
/// a long text.
const HEX: &[(&str, &str)] = &[
    (
        "octets 041400112233445566778899aAbBcCdDeEfFFfEeDdCc",
        "ok 041400112233445566778899aabbccddeeffffeeddcc",
    ),
    (
        "octets 041200112233445566778899aabbccddeeff0123",
        "ok 041200112233445566778899aabbccddeeff0123",
    ),
    (
        "octets g41200112233445566778899aabbccddeeff0123",
        "bad line",
    ),
    (
        "octets 0g1200112233445566778899aabbccddeeff0123",
        "bad line",
    ),
    (
        "octets 041200112233445566778899aabbccgdeeff0123",
        "bad line",
    ),
    (
        "octets 041200112233445566778899aabbccdgeeff0123",
        "bad line",
    ),
    (
        "octets 041200112233445566778899aabbccddgeff0123",
        "bad line",
    ),
    (
        "octets 041200112233445566778899aabbccddegff0123",
        "bad line",
    ),
    (
        "octets 041200112233445566778899aabbccddeeff01g3",
        "bad line",
    ),
    (
        "octets 041200112233445566778899aabbccddeeff012g",
        "bad line",
    ),
    (
        "octets 041200112233445566778899aabbccddeeff01230",
        "bad line",
    ),
    ("octets 0401/0", "bad line"),
    ("octets 04010/", "bad line"),
    ("octets 0401:0", "bad line"),
    ("octets 04010:", "bad line"),
    ("octets 0401@0", "bad line"),
    ("octets 04010@", "bad line"),
    ("octets 0401G0", "bad line"),
    ("octets 04010G", "bad line"),
    ("octets 0401`0", "bad line"),
    ("octets 04010`", "bad line"),
    ("octets 0401g0", "bad line"),
    ("octets 04010g", "bad line"),
    ("octets 0401 0", "bad line"),
    ("octets 04010 ", "bad line"),
    ("octets 0401é", "bad line"),
    ("octets 0xff", "bad line"),
];

/// The output before, the input, the output after, and whether each reply is `ok`.
const INPUTS: &[(&str, &str, &str, bool)] = &[
    ("", "", "", true),
    ("before", "", "before", true),
    ("", "\n", "bad line\n", false),
    ("before\n", "bool 0101ff", "before\nok 0101ff\n", true),
    (
        "ab",
        "int 020105\nnull 0500",
        "abok 020105\nok 0500\n",
        true,
    ),
    (
        "",
        "bool 0101ff\nbool 010100\n",
        "ok 0101ff\nok 010100\n",
        true,
    ),
    (
        "",
        "bool 0101ff\n\nbool 01\nbool 010100",
        "ok 0101ff\nbad line\nerr ShortData 1\nok 010100\n",
        false,
    ),
    (
        "",
        "null 0500\noid 06062A864886F70D\nbits 03020101\nsetof-int 3106020107020105\ntlv \nnull\n\n",
        "ok 0500\nok 06062a864886f70d\nerr InvalidValue\nerr InvalidSetOrdering\nerr ShortData 1\nbad line\nbad line\n",
        false,
    ),
];

/// The output, with what was in it before, and whether each reply is `ok`. After an error the output is unchanged.
fn answered(alloc: Global, before: &str, input: &str) -> Result<(Vec<u8>, bool), Fail> {
    let mut out = Vec::from_slice(alloc, before.as_bytes())?;
    match check(alloc, input.as_bytes(), &mut out) {
        Ok(all_ok) => Ok((out, all_ok)),
        Err(fault) => {
            same(out.as_slice(), before.as_bytes())?;
            Err(fault.into())
        }
    }
}

/// Each line alone has this reply.
fn check_lines(alloc: Global, lines: &[(&str, &str)]) -> Result<(), Fail> {
    for (line, answer) in lines {
        let input = format!(in alloc; "{line}\n")?;
        let output = format!(in alloc; "{answer}\n")?;
        let (out, all_ok) = answered(alloc, "", input.as_str())?;
        same_at(*line, out.as_slice(), output.as_bytes())?;
        same_at(*line, all_ok, answer.starts_with("ok "))?;
    }
    Ok(())
}

#[test]
fn each_line(rt: HostRuntime) -> Result<(), Fail> {
    check_lines(rt.alloc(), LINES)
}

#[test]
fn hex_digits(rt: HostRuntime) -> Result<(), Fail> {
    check_lines(rt.alloc(), HEX)
}

#[test]
fn integers(rt: HostRuntime) -> Result<(), Fail> {
    check_lines(rt.alloc(), INTEGERS)
}

#[test]
fn strings(rt: HostRuntime) -> Result<(), Fail> {
    check_lines(rt.alloc(), STRINGS)
}

#[test]
fn texts(rt: HostRuntime) -> Result<(), Fail> {
    check_lines(rt.alloc(), TEXTS)
}

#[test]
fn times(rt: HostRuntime) -> Result<(), Fail> {
    check_lines(rt.alloc(), TIMES)
}

#[test]
fn lists(rt: HostRuntime) -> Result<(), Fail> {
    check_lines(rt.alloc(), LISTS)
}

/// A line of the word and this many of the digits.
fn cut_line(alloc: Global, word: &str, digits: &str, count: usize) -> Result<String, Fail> {
    let mut line = format!(in alloc; "{word} ")?;
    for digit in digits.chars().take(count) {
        line.push(digit)?;
    }
    line.push('\n')?;
    Ok(line)
}

/// Each proper prefix of an accepted element is too short by what is missing. Tag and length have one octet each.
fn check_fronts(alloc: Global, lines: &[(&str, &str)]) -> Result<(), Fail> {
    for (line, answer) in lines {
        let Some((word, digits)) = line.split_once(' ') else {
            continue;
        };
        if !answer.starts_with("ok ") {
            continue;
        }
        let count = digits.len() / 2;
        for end in 0..count {
            let needed = if end < 2 { 1 } else { count - end };
            let input = cut_line(alloc, word, digits, 2 * end)?;
            let output = format!(in alloc; "err ShortData {needed}\n")?;
            let (out, _all_ok) = answered(alloc, "", input.as_str())?;
            same_at(input.as_str(), out.as_slice(), output.as_bytes())?;
        }
    }
    Ok(())
}

#[test]
fn fronts_of_elements(rt: HostRuntime) -> Result<(), Fail> {
    check_fronts(rt.alloc(), INTEGERS)?;
    check_fronts(rt.alloc(), STRINGS)?;
    check_fronts(rt.alloc(), TEXTS)?;
    check_fronts(rt.alloc(), TIMES)?;
    check_fronts(rt.alloc(), LISTS)
}

#[test]
fn each_input(rt: HostRuntime) -> Result<(), Fail> {
    for (before, input, after, all_ok) in INPUTS {
        let (out, was_ok) = answered(rt.alloc(), before, input)?;
        same_at(*input, out.as_slice(), after.as_bytes())?;
        same_at(*input, was_ok, *all_ok)?;
    }
    Ok(())
}

/// Kinds, and the words of each.
const KINDS: &[(ParseErrorKind, &str)] = &[
    (
        ParseErrorKind::InvalidSize {
            min: 1,
            max: 20,
            actual: 0,
        },
        "InvalidSize 1 20 0",
    ),
    (ParseErrorKind::IntegerOverflow, "IntegerOverflow"),
    (ParseErrorKind::InvalidSetOrdering, "InvalidSetOrdering"),
    (ParseErrorKind::EncodedDefault, "EncodedDefault"),
    (ParseErrorKind::OidTooLong, "OidTooLong"),
    (ParseErrorKind::UnknownDefinedBy, "UnknownDefinedBy"),
    (ParseErrorKind::AllocationError, "AllocationError"),
];

#[test]
fn other_kinds(rt: HostRuntime) -> Result<(), Fail> {
    for (kind, text) in KINDS {
        let mut out = Vec::new(rt.alloc());
        kinds::push_kind(&mut out, *kind)?;
        same(out.as_slice(), text.as_bytes())?;
    }
    Ok(())
}

#[test]
fn modes(rt: HostRuntime) -> Result<(), Fail> {
    let mut args = Vec::with_capacity(rt.alloc(), 2)?;
    same(&mode(&args), &Some(Mode::Check))?;
    args.push(String::from_str(rt.alloc(), "frames")?)?;
    same(&mode(&args), &Some(Mode::Frames))?;
    args.push(String::from_str(rt.alloc(), "x")?)?;
    all_same(&[(mode(&args), None), (mode(&args[1..]), None)])
}

/// How a run ended, and its status.
const STATUSES: &[(Option<Result<bool, Fault>>, u8)] = &[
    (Some(Ok(true)), 0),
    (Some(Ok(false)), 1),
    (Some(Err(Fault::Memory)), 2),
    (Some(Err(Fault::Read)), 2),
    (Some(Err(Fault::Write)), 2),
    (None, 2),
];

#[test]
fn statuses() -> Result<(), Fail> {
    for (ended, number) in STATUSES {
        same_at(*ended, status(*ended), *number)?;
    }
    Ok(())
}

/// An enumerated value of one octet.
#[derive(PartialEq, Drop)]
struct Code(u8);

impl Asn1Type for Code {
    ghost der = { simple_der (λ code. code.0) code_content code_laws };

    fn known(&self) {
        let _number = self.0;
    }
}

impl<'a> SimpleAsn1Readable<'a> for Code {
    fn tag() -> Tag {
        Tag::primitive(0x0a)
    }

    fn parse_data(_alloc: Global, data: &'a [u8]) -> ParseResult<Code> {
        match data {
            [number] => Ok(Code(*number)),
            _ => Err(ParseError::new(ParseErrorKind::InvalidValue)),
        }
    }
}

impl SimpleAsn1Writable for Code {
    type Error = WriteError;

    fn tag() -> Tag {
        Tag::primitive(0x0a)
    }

    fn write_data(&self, dest: &mut WriteBuf) -> WriteResult<()> {
        dest.push_byte(self.0)
    }

    fn data_length(&self) -> Option<usize>
        ensures { result ≡ Some 1 }
    {
        Some(1)
    }
}

#[test]
fn own_type(rt: HostRuntime) -> Result<(), Fail> {
    both_ways(rt.alloc(), Code(7), &[0x0a, 1, 7])?;
    are_invalid::<Code>(rt.alloc(), &[&[0x0a, 2, 0, 7]])
}
