//! Choices of one's own, of any number of alternatives (X.690 8.13, X.680 29). A list of alternatives is a type: eight
//! at a time while there are as many, then three, and then one by one, as `OneOfThree<A, B, C, OneOf<D, NoOther>>`. Its
//! values are read, and moved to the user's enum ([`AsOneOf`]). The enum's bodies that write match on its variants.

ghost use Rattle.std.specs.Prelude.{◌≡◌, IfOk, OnErr};
ghost use Rattle.asn1_core.specs.Der.{Der};
ghost use Rattle.asn1_core.specs.Element.{element_encoding};
ghost use Rattle.asn1_core.specs.Reading.{EndsWith};
ghost use Rattle.asn1_core.specs.Reads.{BeginsWithEncodingOf, IsEncodingOf, ReadsPrefix, ReadsWhole};
ghost use Rattle.asn1_core.specs.Tag.{explicit_tag_of, implicit_tag_of};
ghost use Rattle.asn1_core.specs.Tlv.{element_of};
ghost use Rattle.asn1.specs.AlternativeLists.{AlternativeList, IsAlternative, ReadsAlternative};
ghost use Rattle.asn1.specs.AlternativeLists.{choice, no_list, one_of, one_of_eight, one_of_three};
ghost use Rattle.asn1.specs.Types.{changed_der, inside_der};

use asn1_core::{
    Asn1Readable, Asn1Type, ParseError, ParseErrorKind, ParseResult, Parser, SimpleAsn1Readable,
    Tag, Tlv, explicit_tag, implicit_tag,
};
use std::alloc::Global;
use std::marker::PhantomData;

/// A value of the first alternative, or of one of the others.
#[derive(Drop)]
pub enum OneOf<A, R> {
    /// Of the first.
    First(A),
    /// Of one of the others.
    Other(R),
}

/// A value of one of the first three alternatives, or of one of the others.
#[derive(Drop)]
pub enum OneOfThree<A, B, C, R> {
    /// Of the first.
    First(A),
    /// Of the second.
    Second(B),
    /// Of the third.
    Third(C),
    /// Of one of the others.
    Others(R),
}

/// A value of one of the first eight alternatives, or of one of the others. A list of many is nested an eighth as deep
/// as one by one, since what the prover does for a list grows with how deep its type is nested.
#[derive(Drop)]
pub enum OneOfEight<A, B, C, D, E, F, G, H, R> {
    /// Of the first.
    First(A),
    /// Of the second.
    Second(B),
    /// Of the third.
    Third(C),
    /// Of the fourth.
    Fourth(D),
    /// Of the fifth.
    Fifth(E),
    /// Of the sixth.
    Sixth(F),
    /// Of the seventh.
    Seventh(G),
    /// Of the eighth.
    Eighth(H),
    /// Of one of the others.
    Others(R),
}

/// No alternative: the end of a list.
#[derive(Drop)]
pub enum NoOther {}

/// An alternative: a type as it is, or a type under a tag, whose values have no tag ([`ExplicitTag`], [`ImplicitTag`]).
pub trait Alternative: Sized {
    /// The type of the values.
    type Value;

    ghost der: { Der Self.Value };
}

/// An alternative that is read.
pub trait AlternativeReadable<'a>: Alternative {
    /// Reads an element as a value, with the errors of [`Tlv::parse`].
    fn read(tlv: Tlv<'a>, alloc: Global) -> ParseResult<Self::Value>
        ensures exact { ReadsWhole Self.der (element_encoding (element_of tlv.entry)) result }
        ensures found { IfOk result
            (λ v. IsEncodingOf Self.der v (element_encoding (element_of tlv.entry))) };

    /// Whether an element with this tag may be a value. Also states that each value has one encoding (`plain`), and
    /// that values are read (`read`).
    fn accepts(tag: Tag) -> bool
        ensures value { result ≡ Self.der.accepts tag }
        ensures plain { Self.der.plain }
        ensures read { Self.der.is_read };
}

/// The alternative of the type `T` under the explicit tag with the number `TAG` (X.690 8.14.2).
pub struct ExplicitTag<T, const TAG: u32> {
    values: PhantomData<T>,
}

/// The alternative of the type `T` under the implicit tag with the number `TAG` (X.690 8.14.3).
pub struct ImplicitTag<T, const TAG: u32> {
    values: PhantomData<T>,
}

impl<T: Asn1Type> Alternative for T {
    type Value = T;

    ghost der = { T.der };
}

impl<T: Asn1Type, const TAG: u32> Alternative for ExplicitTag<T, TAG> {
    type Value = T;

    ghost der = { inside_der (explicit_tag_of TAG) (λ value. value) T.der };
}

impl<T: Asn1Type, const TAG: u32> Alternative for ImplicitTag<T, TAG> {
    type Value = T;

    ghost der = { changed_der (implicit_tag_of TAG) (λ value. value) T.der };
}

impl<'a, T: Asn1Readable<'a>> AlternativeReadable<'a> for T {
    #[inline(always)]
    fn read(tlv: Tlv<'a>, alloc: Global) -> ParseResult<T> {
        tlv.parse::<T>(alloc)
    }

    #[inline(always)]
    fn accepts(tag: Tag) -> bool {
        T::can_parse(tag)
    }
}

impl<'a, T: Asn1Readable<'a>, const TAG: u32> AlternativeReadable<'a> for ExplicitTag<T, TAG> {
    #[inline(always)]
    fn read(tlv: Tlv<'a>, alloc: Global) -> ParseResult<T> {
        let octets = tlv.full_data();
        octets.known();
        let mut parser = Parser::new(alloc, octets);
        let value = parser.read_explicit_element::<T>(TAG)?;
        if !parser.is_empty() {
            return Err(ParseError::new(ParseErrorKind::ExtraData));
        }
        Ok(value)
    }

    #[inline(always)]
    fn accepts(tag: Tag) -> bool {
        // By this call's contract each value of the type has one encoding.
        let _is_accepted = T::can_parse(tag);
        tag == explicit_tag(TAG)
    }
}

impl<'a, T: SimpleAsn1Readable<'a>, const TAG: u32> AlternativeReadable<'a>
    for ImplicitTag<T, TAG> {
    #[inline(always)]
    fn read(tlv: Tlv<'a>, alloc: Global) -> ParseResult<T> {
        let octets = tlv.full_data();
        octets.known();
        let mut parser = Parser::new(alloc, octets);
        let value = parser.read_implicit_element::<T>(TAG)?;
        if !parser.is_empty() {
            return Err(ParseError::new(ParseErrorKind::ExtraData));
        }
        Ok(value)
    }

    #[inline(always)]
    fn accepts(tag: Tag) -> bool {
        tag == implicit_tag(TAG, T::tag())
    }
}

/// What a list of alternatives means, for contracts alone.
pub trait Alternatives: Sized {
    /// The type of the values.
    type Values;

    ghost list: { AlternativeList Self.Values };
}

/// Alternatives that are read.
pub trait AlternativesReadable<'a>: Alternatives {
    /// Reads an element as a value of the first alternative that accepts its tag. Errors: those of this alternative;
    /// `UnexpectedTag` if none accepts the tag.
    fn read(tlv: Tlv<'a>, alloc: Global) -> ParseResult<Self::Values>
        ensures answers { ReadsAlternative Self.list (element_of tlv.entry) result }
        ensures found { IfOk result (λ v. IsAlternative Self.list v (element_of tlv.entry)) };

    /// Whether an element with this tag may be a value of one of the alternatives. Also states that each value has one
    /// encoding (`plain`), and that values are read (`read`).
    fn accepts(tag: Tag) -> bool
        ensures value { result ≡ Self.list.all.accepts tag }
        ensures plain { Self.list.all.plain }
        ensures read { Self.list.all.is_read };
}

/// A choice of one's own, whose values are seen as values `V` of a list of alternatives. What `seen` forgets of a
/// value, such as which of two variants it is, no law sees.
pub trait AsOneOf<V>: Sized {
    ghost seen: { Self → V };

    /// The value that is seen as this one: the body is [`crate::take_choice`].
    fn from_one_of(value: V) -> Self
        ensures { seen result ≡ value };
}

impl Alternatives for NoOther {
    type Values = NoOther;

    ghost list = { no_list };
}

impl<A: Alternative, R: Alternatives> Alternatives for OneOf<A, R> {
    type Values = OneOf<A::Value, R::Values>;

    ghost list = { one_of A.der R.list };
}

impl<A: Alternative, B: Alternative, C: Alternative, R: Alternatives> Alternatives
    for OneOfThree<A, B, C, R> {
    type Values = OneOfThree<A::Value, B::Value, C::Value, R::Values>;

    ghost list = { one_of_three A.der B.der C.der R.list };
}

impl<
    A: Alternative,
    B: Alternative,
    C: Alternative,
    D: Alternative,
    E: Alternative,
    F: Alternative,
    G: Alternative,
    H: Alternative,
    R: Alternatives,
> Alternatives for OneOfEight<A, B, C, D, E, F, G, H, R> {
    type Values = OneOfEight<
        A::Value,
        B::Value,
        C::Value,
        D::Value,
        E::Value,
        F::Value,
        G::Value,
        H::Value,
        R::Values,
    >;

    ghost list = { one_of_eight A.der B.der C.der D.der E.der F.der G.der H.der R.list };
}

impl<'a> AlternativesReadable<'a> for NoOther {
    #[inline(always)]
    fn read(tlv: Tlv<'a>, _alloc: Global) -> ParseResult<NoOther> {
        Err(ParseError::new(ParseErrorKind::UnexpectedTag { actual: tlv.tag() }))
    }

    #[inline(always)]
    fn accepts(_tag: Tag) -> bool {
        false
    }
}

impl<'a, A: AlternativeReadable<'a>, R: AlternativesReadable<'a>> AlternativesReadable<'a>
    for OneOf<A, R> {
    #[inline(always)]
    fn read(tlv: Tlv<'a>, alloc: Global) -> ParseResult<Self::Values> {
        if A::accepts(tlv.tag()) {
            return Ok(OneOf::First(A::read(tlv, alloc)?));
        }
        Ok(OneOf::Other(R::read(tlv, alloc)?))
    }

    #[inline(always)]
    fn accepts(tag: Tag) -> bool {
        // Each alternative is called, since by each contract the values of that alternative have one encoding.
        let first = A::accepts(tag);
        let others = R::accepts(tag);
        first || others
    }
}

impl<
    'a,
    A: AlternativeReadable<'a>,
    B: AlternativeReadable<'a>,
    C: AlternativeReadable<'a>,
    R: AlternativesReadable<'a>,
> AlternativesReadable<'a> for OneOfThree<A, B, C, R> {
    #[inline(always)]
    fn read(tlv: Tlv<'a>, alloc: Global) -> ParseResult<Self::Values> {
        if A::accepts(tlv.tag()) {
            return Ok(OneOfThree::First(A::read(tlv, alloc)?));
        }
        if B::accepts(tlv.tag()) {
            return Ok(OneOfThree::Second(B::read(tlv, alloc)?));
        }
        if C::accepts(tlv.tag()) {
            return Ok(OneOfThree::Third(C::read(tlv, alloc)?));
        }
        Ok(OneOfThree::Others(R::read(tlv, alloc)?))
    }

    #[inline(always)]
    fn accepts(tag: Tag) -> bool {
        // Each is called, as in a list of one.
        let first = A::accepts(tag);
        let second = B::accepts(tag);
        let third = C::accepts(tag);
        let others = R::accepts(tag);
        first || second || third || others
    }
}

impl<
    'a,
    A: AlternativeReadable<'a>,
    B: AlternativeReadable<'a>,
    C: AlternativeReadable<'a>,
    D: AlternativeReadable<'a>,
    E: AlternativeReadable<'a>,
    F: AlternativeReadable<'a>,
    G: AlternativeReadable<'a>,
    H: AlternativeReadable<'a>,
    R: AlternativesReadable<'a>,
> AlternativesReadable<'a> for OneOfEight<A, B, C, D, E, F, G, H, R> {
    #[inline(always)]
    fn read(tlv: Tlv<'a>, alloc: Global) -> ParseResult<Self::Values> {
        if A::accepts(tlv.tag()) {
            return Ok(OneOfEight::First(A::read(tlv, alloc)?));
        }
        if B::accepts(tlv.tag()) {
            return Ok(OneOfEight::Second(B::read(tlv, alloc)?));
        }
        if C::accepts(tlv.tag()) {
            return Ok(OneOfEight::Third(C::read(tlv, alloc)?));
        }
        if D::accepts(tlv.tag()) {
            return Ok(OneOfEight::Fourth(D::read(tlv, alloc)?));
        }
        if E::accepts(tlv.tag()) {
            return Ok(OneOfEight::Fifth(E::read(tlv, alloc)?));
        }
        if F::accepts(tlv.tag()) {
            return Ok(OneOfEight::Sixth(F::read(tlv, alloc)?));
        }
        if G::accepts(tlv.tag()) {
            return Ok(OneOfEight::Seventh(G::read(tlv, alloc)?));
        }
        if H::accepts(tlv.tag()) {
            return Ok(OneOfEight::Eighth(H::read(tlv, alloc)?));
        }
        Ok(OneOfEight::Others(R::read(tlv, alloc)?))
    }

    #[inline(always)]
    fn accepts(tag: Tag) -> bool {
        // Each is called, as in a list of one.
        let first = A::accepts(tag);
        let second = B::accepts(tag);
        let third = C::accepts(tag);
        let fourth = D::accepts(tag);
        let fifth = E::accepts(tag);
        let sixth = F::accepts(tag);
        let seventh = G::accepts(tag);
        let eighth = H::accepts(tag);
        let others = R::accepts(tag);
        first || second || third || fourth || fifth || sixth || seventh || eighth || others
    }
}

/// Reads the next element as a value of the choice `C`, which has the alternatives `R`: the body of its `parse`. The
/// element is framed first. Errors after those of framing are those of [`AlternativesReadable::read`].
#[inline(always)]
pub fn read_choice<'a, R: AlternativesReadable<'a>, C: AsOneOf<R::Values>>(
    parser: &mut Parser<'a>,
) -> ParseResult<C>
    ensures answers { ReadsPrefix (choice C.seen R.list) parser.old parser.new result }
    ensures found { IfOk result (λ v. BeginsWithEncodingOf (choice C.seen R.list) v parser.old
        parser.new) }
    ensures rest { EndsWith parser.old parser.new }
    ensures stops { OnErr result ((choice C.seen R.list).stops parser.old parser.new) }
{
    let tlv = parser.read_element::<Tlv<'a>>()?;
    let value = R::read(tlv, parser.alloc())?;
    Ok(C::from_one_of(value))
}

/// One alternative.
pub type OneOf1<A> = OneOf<A, NoOther>;

/// Two alternatives.
pub type OneOf2<A, B> = OneOf<A, OneOf1<B>>;

/// Three alternatives.
pub type OneOf3<A, B, C> = OneOfThree<A, B, C, NoOther>;

/// Four alternatives.
pub type OneOf4<A, B, C, D> = OneOfThree<A, B, C, OneOf1<D>>;

/// Five alternatives.
pub type OneOf5<A, B, C, D, E> = OneOfThree<A, B, C, OneOf2<D, E>>;

/// Six alternatives.
pub type OneOf6<A, B, C, D, E, F> = OneOfThree<A, B, C, OneOf3<D, E, F>>;

/// Seven alternatives.
pub type OneOf7<A, B, C, D, E, F, G> = OneOfThree<A, B, C, OneOf4<D, E, F, G>>;

/// Eight alternatives.
pub type OneOf8<A, B, C, D, E, F, G, H> = OneOfEight<A, B, C, D, E, F, G, H, NoOther>;

/// Nine alternatives.
pub type OneOf9<A, B, C, D, E, F, G, H, I> = OneOfEight<A, B, C, D, E, F, G, H, OneOf1<I>>;

/// Ten alternatives.
pub type OneOf10<A, B, C, D, E, F, G, H, I, J> = OneOfEight<A, B, C, D, E, F, G, H, OneOf2<I, J>>;

/// Eleven alternatives.
pub type OneOf11<A, B, C, D, E, F, G, H, I, J, K> = OneOfEight<
    A,
    B,
    C,
    D,
    E,
    F,
    G,
    H,
    OneOf3<I, J, K>,
>;

/// Twelve alternatives.
pub type OneOf12<A, B, C, D, E, F, G, H, I, J, K, L> = OneOfEight<
    A,
    B,
    C,
    D,
    E,
    F,
    G,
    H,
    OneOf4<I, J, K, L>,
>;

/// The list of eight alternatives and others, one by one.
pub type EightOneByOne<A, B, C, D, E, F, G, H, R> = OneOf<
    A,
    OneOf<B, OneOf<C, OneOf<D, OneOf<E, OneOf<F, OneOf<G, OneOf<H, R>>>>>>>,
>;
