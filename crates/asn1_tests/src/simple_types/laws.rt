//! What the laws state about Rust values: each function here is proved to return true.

ghost use Rattle.std.specs.Prelude.{◌≡◌, IsTrue};
ghost use Rattle.asn1_values.specs.Values.{owned_big_int_number};

use asn1_values::laws_texts::ia5_strings_compare;
use asn1_values::laws_times::date_times_compare;
use asn1_values::laws_values::owned_big_ints_compare;
use asn1_values::values::{DateTime, IA5String, OwnedBigInt};
use std::test::Fail;

/// A string has a clone, which equals it.
fn text_equals_its_clone(text: &IA5String<'_>) -> bool
    ensures { IsTrue result }
{
    ia5_strings_compare();
    match text.clone() {
        Ok(copy) => copy == *text,
        Err(_) => false,
    }
}

/// The same of a date.
fn date_equals_its_clone(date: &DateTime) -> bool
    ensures { IsTrue result }
{
    date_times_compare();
    match date.clone() {
        Ok(copy) => copy == *date,
        Err(_) => false,
    }
}

/// Integers of the same number are equal.
fn same_numbers_are_equal(left: &OwnedBigInt, right: &OwnedBigInt) -> bool
    requires { owned_big_int_number left.now ≡ owned_big_int_number right.now }
    ensures { IsTrue result }
{
    owned_big_ints_compare();
    *left == *right
}

#[test]
fn laws_serve_values_in_hand(rt: HostRuntime) -> Result<(), Fail> {
    let text = IA5String::new("abc").ok_or("no text")?;
    assert!(rt; text_equals_its_clone(&text));
    assert!(rt; date_equals_its_clone(&DateTime::new(2024, 2, 29, 0, 0, 0)?));
    let octets = Vec::from_slice(rt.alloc(), &[0x00, 0x80])?;
    let number = OwnedBigInt::new(octets).ok_or("no content")?;
    assert!(rt; same_numbers_are_equal(&number.clone()?, &number));
    Ok(())
}
