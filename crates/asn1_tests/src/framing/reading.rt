use crate::framing::elements::with_places;
use asn1_core::parser::{
    ParseError, ParseErrorKind, ParseLocation, ParseResult, Parser, Place, parse, parse_single,
};
use asn1_core::tag::Tag;
use std::alloc::Global;
use std::test::Fail;
use testing::{all_same, are_refused, different, is_refusal, is_shown, same, same_owned};

#[test]
fn truth_values(rt: HostRuntime) -> Result<(), Fail> {
    let yes = parse_single::<bool>(rt.alloc(), &[0x01, 0x01, 0xff])?;
    let no = parse_single::<bool>(rt.alloc(), &[0x01, 0x01, 0x00])?;
    same((yes, no), (true, false))?;
    are_refused::<bool>(
        rt.alloc(),
        &[
            (&[0x01, 0x00], ParseErrorKind::InvalidValue),
            (&[0x01, 0x01, 0x01], ParseErrorKind::InvalidValue),
            (&[0x01, 0x02, 0x00, 0x00], ParseErrorKind::InvalidValue),
            (&[0x01, 0x02, 0xff, 0x01], ParseErrorKind::InvalidValue),
            (&[0x01, 0x01, 0xff, 0x00], ParseErrorKind::ExtraData),
            (&[0x01, 0x81, 0x01, 0xff], ParseErrorKind::InvalidLength),
            (&[0x01, 0x80], ParseErrorKind::InvalidLength),
            (&[0x1f, 0x1e, 0x00], ParseErrorKind::InvalidTag),
            (&[0x02, 0x01], ParseErrorKind::ShortData { needed: 1 }),
            (&[], ParseErrorKind::ShortData { needed: 1 }),
        ],
    )?;
    let actual = Tag::primitive(2);
    is_refusal(
        parse_single::<bool>(rt.alloc(), &[0x02, 0x01, 0x05]),
        ParseErrorKind::UnexpectedTag { actual },
    )
}

#[test]
fn what_is_left_is_extra(rt: HostRuntime) -> Result<(), Fail> {
    let read = parse(
        rt.alloc(),
        &[0x00],
        |_parser: &mut Parser<'_>| -> ParseResult<()> { Ok(()) },
    );
    is_refusal(read, ParseErrorKind::ExtraData)
}

/// An error of a caller's own.
#[derive(Debug, PartialEq, Eq, Drop)]
enum Own {
    Odd(u64),
    Read(ParseError),
}

impl From<ParseError> for Own {
    fn from(error: ParseError) -> Own {
        Own::Read(error)
    }
}

/// Reads a number that has to be even.
fn even_number(alloc: Global, octets: &[u8]) -> Result<u64, Own> {
    parse(alloc, octets, |parser: &mut Parser<'_>| {
        let number = parser.read_element::<u64>()?;
        if number % 2 == 0 {
            Ok(number)
        } else {
            Err(Own::Odd(number))
        }
    })
}

#[test]
fn errors_of_a_caller(rt: HostRuntime) -> Result<(), Fail> {
    let short = ParseError::new(ParseErrorKind::ShortData { needed: 1 });
    all_same(&[
        (even_number(rt.alloc(), &[0x02, 0x01, 0x08]), Ok(8)),
        (
            even_number(rt.alloc(), &[0x02, 0x01, 0x07]),
            Err(Own::Odd(7)),
        ),
        (
            even_number(rt.alloc(), &[0x02, 0x01]),
            Err(Own::Read(short)),
        ),
    ])
}

#[test]
fn the_next_tag_is_seen_and_then_read(rt: HostRuntime) -> Result<(), Fail> {
    let read = parse(
        rt.alloc(),
        &[0x02, 0x01, 0x7f, 0x01, 0x01, 0xff],
        |parser: &mut Parser<'_>| -> ParseResult<(Option<Tag>, u8, bool)> {
            let tag = parser.peek_tag();
            let number = parser.read_element::<u8>()?;
            let truth = parser.read_element::<bool>()?;
            Ok((tag, number, truth))
        },
    );
    same_owned(read, Ok((Some(Tag::primitive(2)), 127, true)))
}

/// Reads a Boolean after an element that is rejected as one.
fn second_boolean(alloc: Global, octets: &[u8]) -> ParseResult<bool> {
    parse(
        alloc,
        octets,
        |parser: &mut Parser<'_>| -> ParseResult<bool> {
            let _refused = parser.read_element::<bool>();
            parser.read_element::<bool>()
        },
    )
}

#[test]
fn a_closure_ignores_a_refusal(rt: HostRuntime) -> Result<(), Fail> {
    let octets = [0x02, 0x01, 0x05, 0x01, 0x01, 0xff];
    same(second_boolean(rt.alloc(), &octets)?, true)?;
    let octets = [0x01, 0x01, 0x05, 0x01, 0x01, 0xff, 0x00];
    is_refusal(
        second_boolean(rt.alloc(), &octets),
        ParseErrorKind::ExtraData,
    )
}

#[test]
fn a_refusal_that_is_ignored(rt: HostRuntime) -> Result<(), Fail> {
    let octets = [0x02, 0x01, 0x05, 0x01, 0x01, 0xff];
    let mut parser = Parser::new(rt.alloc(), &octets);
    let actual = Tag::primitive(2);
    is_refusal(
        parser.read_element::<bool>(),
        ParseErrorKind::UnexpectedTag { actual },
    )?;
    same(parser.rest(), &octets[3..])?;
    let truth = parser.read_element::<bool>()?;
    same((truth, parser.is_empty()), (true, true))
}

#[test]
fn places_of_an_error(rt: HostRuntime) -> Result<(), Fail> {
    const SHOWN: &[(usize, &str)] = &[
        (0, "ParseError { kind: InvalidValue }"),
        (
            1,
            "ParseError { kind: InvalidValue, location: [\"Abc::123\"] }",
        ),
        (
            2,
            "ParseError { kind: InvalidValue, location: [\"Abc::123\", 12] }",
        ),
    ];
    for (places, text) in SHOWN {
        let error = with_places(ParseErrorKind::InvalidValue, *places);
        is_shown(rt.alloc(), &error, text)?;
    }
    Ok(())
}

#[test]
fn places_are_seen() -> Result<(), Fail> {
    let error = with_places(ParseErrorKind::InvalidValue, 2);
    let [Place::Index(index), Place::Field(name)] = error.places() else {
        return Err(Fail::new(format_args!("other places than of {error:?}")));
    };
    same((*index, name.as_str()), (12, "Abc::123"))
}

/// An error with the locations `Index(1)` to `Index(count)`, with 99 instead of the number `other`.
fn deep(count: usize, other: usize) -> ParseError {
    let mut error = ParseError::new(ParseErrorKind::ExtraData);
    for i in 0..count {
        let index = if i + 1 == other { 99 } else { i + 1 };
        error = error.add_location(ParseLocation::Index(index));
    }
    error
}

#[test]
fn innermost_places_are_kept(rt: HostRuntime) -> Result<(), Fail> {
    let nine = deep(9, 0);
    let text = "ParseError { kind: ExtraData, location: [8, 7, 6, 5, 4, 3, 2, 1] }";
    is_shown(rt.alloc(), &nine, text)?;
    same(&deep(8, 0), &nine)?;
    same(&deep(9, 9), &nine)?;
    same(nine.kind(), ParseErrorKind::ExtraData)
}

/// Twice the arguments of `deep`. The two errors differ.
const DIFFERENT: &[(usize, usize, usize, usize)] = &[
    (9, 1, 9, 0),
    (9, 2, 9, 0),
    (9, 3, 9, 0),
    (9, 4, 9, 0),
    (9, 5, 9, 0),
    (9, 6, 9, 0),
    (9, 7, 9, 0),
    (9, 8, 9, 0),
    (5, 0, 5, 5),
    (7, 0, 8, 0),
    (3, 0, 4, 0),
];

#[test]
fn kept_places_are_compared() -> Result<(), Fail> {
    for (count, other, second_count, second_other) in DIFFERENT {
        let second = deep(*second_count, *second_other);
        different(&deep(*count, *other), &second)?;
    }
    Ok(())
}
