//! What a user gets from the laws of lists of alternatives, with no proof by hand.

ghost use Rattle.asn1.specs.AlternativeLists.{choice, EachHasOneEncoding};
ghost use Rattle.asn1.specs.Alternatives.{Disjoint};
ghost use Rattle.asn1.specs.Reads.{HasOneEncoding};

use asn1::Asn1Type;
use asn1::alternatives::{
    Alternative, Alternatives, AsOneOf, EightOneByOne, ExplicitTag, NoOther, OneOf, OneOf1, OneOf2,
    OneOf3, OneOfEight, OneOfThree,
};
use asn1::laws_wrappers::{
    alternatives_apart_are_lawful, alternatives_are_lawful, alternatives_by_eight_are_lawful,
    alternatives_by_three_are_lawful, choices_of_alternatives_are_lawful, tags_are_apart,
};

/// Alternatives with one tag each.
type Tagged = OneOf3<bool, ExplicitTag<u8, 1>, &'static [u8]>;

/// A choice of one's own has one encoding for each value, if its two alternatives are elements, have, and accept no tag
/// in common.
pub fn choices_of_two<
    T: Alternative,
    U: Alternative,
    C: AsOneOf<<OneOf2<T, U> as Alternatives>::Values>,
>()
    requires one { HasOneEncoding T.der }
    requires element { T.der.is_element }
    requires other { HasOneEncoding U.der }
    requires other_element { U.der.is_element }
    requires disjoint { Disjoint T.der.accepts U.der.accepts }
    ensures one { HasOneEncoding (choice C.seen ⟦<OneOf2<T, U> as Alternatives>⟧.list) }
    ensures element { (choice C.seen ⟦<OneOf2<T, U> as Alternatives>⟧.list).is_element }
{
    alternatives_are_lawful::<U, NoOther>();
    alternatives_are_lawful::<T, OneOf1<U>>();
    choices_of_alternatives_are_lawful::<OneOf2<T, U>, C>();
}

/// A list of three alternatives at a time has one encoding for each value, if a list of the three one by one has.
pub fn choices_by_three<
    A: Alternative,
    B: Alternative,
    C: Alternative,
    R: Alternatives,
    W: AsOneOf<<OneOfThree<A, B, C, R> as Alternatives>::Values>,
>()
    requires { EachHasOneEncoding ⟦<OneOf<A, OneOf<B, OneOf<C, R>>> as Alternatives>⟧.list }
    ensures { HasOneEncoding (choice W.seen ⟦<OneOfThree<A, B, C, R> as Alternatives>⟧.list) }
{
    alternatives_by_three_are_lawful::<A, B, C, R>();
    choices_of_alternatives_are_lawful::<OneOfThree<A, B, C, R>, W>();
}

/// The same of eight.
pub fn lists_by_eight<A: Alternative, R: Alternatives>()
    requires { EachHasOneEncoding
        ⟦<EightOneByOne<A, A, A, A, A, A, A, A, R> as Alternatives>⟧.list }
    ensures { EachHasOneEncoding ⟦<OneOfEight<A, A, A, A, A, A, A, A, R> as Alternatives>⟧.list }
{
    alternatives_by_eight_are_lawful::<A, A, A, A, A, A, A, A, R>();
}

/// A list of alternatives with one tag each is lawful: its tags are compared by computing.
pub fn lists_by_tags()
    ensures { EachHasOneEncoding ⟦<Tagged as Alternatives>⟧.list }
{
    alternatives_apart_are_lawful::<Tagged>();
}

/// So is a list of two alternatives with several tags each, if none of the one is accepted by the other.
pub fn lists_of_two<T: Asn1Type, U: Asn1Type>()
    requires one { HasOneEncoding T.der }
    requires element { T.der.is_element }
    requires other { HasOneEncoding U.der }
    requires other_element { U.der.is_element }
    requires disjoint { Disjoint T.der.accepts U.der.accepts }
    ensures { EachHasOneEncoding ⟦<OneOf2<T, U> as Alternatives>⟧.list }
{
    tags_are_apart::<T, U>();
    alternatives_apart_are_lawful::<OneOf2<T, U>>();
}
