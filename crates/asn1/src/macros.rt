//! Macros for the bodies of a structure's impls. An entry of their list of fields is
//!
//! - `name`, a field;
//! - `name: Type`, a field under a tag or with a default, which `Type` states, as `Option<Implicit<u64, 0>>` or
//!   `Defaulted<bool, No>` do;
//! - `name of value: Type`, the position of an item of this type, which the field `value` determines;
//! - `name by Type`, a value that an item of this type defines.
//!
//! Macros for the bodies of a choice's impls have the enum with a name for the value in a variant, and a list of its
//! variants, in the order of the alternatives, as in `ResponderId(x); ByName: explicit 1, ByKey: explicit 2, Other`. An
//! entry is
//!
//! - `Name`, a variant whose value is encoded as it is;
//! - `Name: explicit 1` or `Name: implicit 1`, one under this tag, without which the variant has the value.
//!
//! The name is the caller's, so that the prover's search tries what is known of the value. A name of these macros' own
//! it doesn't try, and ends at its limit where an alternative is a list.

/// States that the fields are valid: the body of `known`. `known_fields!(self; r, s)`
#[macro_export]
macro_rules! known_fields {
    ($of:expr;) => {{}};
    ($of:expr; $($name:ident $(of $value:ident)? $(by $item:ty)? $(: $type:ty)?),+ $(,)?) => {{
        $($crate::known_field!($of, $name $(of $value)? $(by $item)? $(: $type)?);)+
    }};
}

/// States that a field is valid.
#[macro_export]
macro_rules! known_field {
    ($of:expr, $name:ident of $value:ident: $item:ty) => {
        $crate::fields::known_item::<$item, _>(&$of.$value)
    };
    ($of:expr, $name:ident by $item:ty) => {
        $crate::fields::known_value::<$item, _>(&$of.$name)
    };
    ($of:expr, $name:ident: $type:ty) => {
        $crate::fields::known_plain::<$type, _>(&$of.$name)
    };
    ($of:expr, $name:ident) => {
        $crate::Asn1Type::known(&$of.$name)
    };
}

/// Reads a row of fields, and moves them to the fields of a struct, in order: the body of `parse_data`.
/// `read_fields!(Fields2<u64, u64>, alloc, data => Signature; r, s)`
#[macro_export]
macro_rules! read_fields {
    ($row:ty, $alloc:expr, $data:expr => $of:ident;
        $($name:ident $(of $value:ident)? $(by $item:ty)? $(: $type:ty)?),* $(,)?) => {{
        let row = match $crate::fields::read_fields::<$row, $crate::fields::Names>(
            $alloc,
            $data,
            $crate::fields::Names { list: &[$(concat!(stringify!($of), "::", stringify!($name))),*] },
        ) {
            Ok(row) => row,
            Err(error) => return Err(error),
        };
        Ok($crate::take_fields!(row; $of {};
            $($name $(of $value)? $(by $item)? $(: $type)?),*))
    }};
}

/// Moves the fields of a row to those of a struct. Each is moved from its place in the row, since a variable for it and
/// one for the fields after it would double the proof.
#[macro_export]
macro_rules! take_fields {
    ($row:expr; $of:ident {};) => {{
        let _fields = $row;
        $of {}
    }};
    ($row:expr; $of:ident { $($done:tt)* };
        $name:ident $(of $value:ident)? $(by $item:ty)? $(: $type:ty)?) => {
        $of { $($done)* $name: $crate::taken_field!($row.value $(, of $value)? $(, $type)?) }
    };
    ($row:expr; $of:ident { $($done:tt)* };
        $name:ident $(of $value:ident)? $(by $item:ty)? $(: $type:ty)?, $($rest:tt)+) => {
        $crate::take_fields!($row.rest; $of {
            $($done)* $name: $crate::taken_field!($row.value $(, of $value)? $(, $type)?),
        }; $($rest)+)
    };
}

/// The value of a field as a struct has it.
#[macro_export]
macro_rules! taken_field {
    ($value:expr $(, of $by:ident, $item:ty)?) => { $value };
    ($value:expr, $type:ty) => { $crate::fields::into_plain::<$type, _>($value) };
}

/// Appends the fields as the contents octets of a structure: the body of `write_data`. The first error of a field's
/// write is returned, `AllocationError` if out of memory. `write_fields!(self, dest; r, s)`
#[macro_export]
macro_rules! write_fields {
    ($of:expr, $dest:expr;) => {{
        let _dest = $dest;
        Ok(())
    }};
    ($of:expr, $dest:expr; $($name:ident $(of $value:ident)? $(by $item:ty)? $(: $type:ty)?),+ $(,)?) => {
        $crate::fields::RowWritable::<
            $crate::kinds!($($crate::kind!($name $(of $value)? $(by $item)? $(: $type)?)),+),
        >::write(&$crate::row!($($crate::field_value!($of, $name $(of $value)?)),+), $dest)
    };
}

/// How many octets the encodings of the fields have together, if that is known: the body of `data_length`.
/// `fields_length!(self; r, s)`
#[macro_export]
macro_rules! fields_length {
    ($of:expr;) => { Some(0) };
    ($of:expr; $($name:ident $(of $value:ident)? $(by $item:ty)? $(: $type:ty)?),+ $(,)?) => {
        $crate::fields::RowWritable::<
            $crate::kinds!($($crate::kind!($name $(of $value)? $(by $item)? $(: $type)?)),+),
        >::length(&$crate::row!($($crate::field_value!($of, $name $(of $value)?)),+))
    };
}

/// A field whose value is written: of an item the field that defines it.
#[macro_export]
macro_rules! field_value {
    ($of:expr, $name:ident of $value:ident) => { &$of.$value };
    ($of:expr, $name:ident) => { &$of.$name };
}

/// How a field is written: the type that implements `FieldWritable`.
#[macro_export]
macro_rules! kind {
    ($name:ident of $value:ident: $item:ty) => { $crate::fields::ItemOf<$item> };
    ($name:ident by $item:ty) => { $crate::fields::ValueOf<$item> };
    ($name:ident: $type:ty) => { $type };
    ($name:ident) => { $crate::fields::Plain };
}

/// How the fields of a row are written.
#[macro_export]
macro_rules! kinds {
    ($a:ty, $b:ty, $c:ty, $d:ty, $($rest:ty),+) => {
        $crate::fields::Four<$a, $b, $c, $d, $crate::kinds!($($rest),+)>
    };
    ($kind:ty, $($rest:ty),+) => { $crate::fields::Field<$kind, $crate::kinds!($($rest),+)> };
    ($kind:ty) => { $crate::fields::Last<$kind> };
}

/// The values as a row, which is written: four at a time, since the kit finds the lifetimes of a row that is nested
/// nine deep, and of none that is nested deeper, if a field has a lifetime of its own.
#[macro_export]
macro_rules! row {
    ($a:expr, $b:expr, $c:expr, $d:expr, $($rest:expr),+) => {
        $crate::fields::Four { a: $a, b: $b, c: $c, d: $d, rest: $crate::row!($($rest),+) }
    };
    ($value:expr, $($rest:expr),+) => {
        $crate::fields::Field { value: $value, rest: $crate::row!($($rest),+) }
    };
    ($value:expr) => { $crate::fields::Last { value: $value } };
}

/// States that the value in each variant is valid: the body of `known`.
/// `known_choice!(self; ResponderId(x); ByName: explicit 1, ByKey: explicit 2)`
#[macro_export]
macro_rules! known_choice {
    ($of:expr; $choice:ident($x:ident);
        $($name:ident $(: $kind:ident $tag:literal)?),+ $(,)?) => {
        match $of {
            $($choice::$name($x) => $crate::Asn1Type::known($x),)+
        }
    };
}

/// Appends the encoding of the value in the variant: the body of `write`. Errors are those of the variant's write.
/// `write_choice!(self, dest; ResponderId(x); ByName: explicit 1, ByKey: explicit 2)`
#[macro_export]
macro_rules! write_choice {
    ($of:expr, $dest:expr; $choice:ident($x:ident);
        $($name:ident $(: $kind:ident $tag:literal)?),+ $(,)?) => {
        match $of {
            $($choice::$name($x) => $crate::write_variant!($x, $dest $(, $kind $tag)?),)+
        }
    };
}

/// Appends the encoding of the value in a variant.
#[macro_export]
macro_rules! write_variant {
    ($value:expr, $dest:expr) => { $crate::Asn1Writable::write($value, $dest) };
    ($value:expr, $dest:expr, explicit $tag:literal) => { $crate::fields::write_explicit($value, $tag, $dest) };
    ($value:expr, $dest:expr, implicit $tag:literal) => { $crate::fields::write_implicit($value, $tag, $dest) };
}

/// How many octets the encoding of the value in the variant has, if that is known: the body of `encoded_length`.
/// `choice_length!(self; ResponderId(x); ByName: explicit 1, ByKey: explicit 2)`
#[macro_export]
macro_rules! choice_length {
    ($of:expr; $choice:ident($x:ident);
        $($name:ident $(: $kind:ident $tag:literal)?),+ $(,)?) => {
        match $of {
            $($choice::$name($x) => $crate::variant_length!($x $(, $kind $tag)?),)+
        }
    };
}

/// How many octets the encoding of the value in a variant has, if that is known.
#[macro_export]
macro_rules! variant_length {
    ($value:expr) => { $crate::fields::value_length($value) };
    ($value:expr, explicit $tag:literal) => { $crate::fields::explicit_length($value, $tag) };
    ($value:expr, implicit $tag:literal) => { $crate::fields::implicit_length($value, $tag) };
}

/// Moves the value of an alternative to its variant: the body of `from_one_of`. A list has eight alternatives at a time
/// while there are as many, and then three.
/// `take_choice!(value; ResponderId(x); ByName: explicit 1, ByKey: explicit 2)`
#[macro_export]
macro_rules! take_choice {
    ($value:expr; $choice:ident($x:ident);) => { match $value {} };
    ($value:expr; $choice:ident($x:ident);
        $a:ident $(: $a_kind:ident $a_tag:literal)?,
        $b:ident $(: $b_kind:ident $b_tag:literal)?,
        $c:ident $(: $c_kind:ident $c_tag:literal)?,
        $d:ident $(: $d_kind:ident $d_tag:literal)?,
        $e:ident $(: $e_kind:ident $e_tag:literal)?,
        $f:ident $(: $f_kind:ident $f_tag:literal)?,
        $g:ident $(: $g_kind:ident $g_tag:literal)?,
        $h:ident $(: $h_kind:ident $h_tag:literal)? $(, $($rest:tt)*)?) => {
        match $value {
            $crate::alternatives::OneOfEight::First($x) => $choice::$a($x),
            $crate::alternatives::OneOfEight::Second($x) => $choice::$b($x),
            $crate::alternatives::OneOfEight::Third($x) => $choice::$c($x),
            $crate::alternatives::OneOfEight::Fourth($x) => $choice::$d($x),
            $crate::alternatives::OneOfEight::Fifth($x) => $choice::$e($x),
            $crate::alternatives::OneOfEight::Sixth($x) => $choice::$f($x),
            $crate::alternatives::OneOfEight::Seventh($x) => $choice::$g($x),
            $crate::alternatives::OneOfEight::Eighth($x) => $choice::$h($x),
            $crate::alternatives::OneOfEight::Others(others) => {
                $crate::take_choice!(others; $choice($x); $($($rest)*)?)
            }
        }
    };
    ($value:expr; $choice:ident($x:ident);
        $a:ident $(: $a_kind:ident $a_tag:literal)?,
        $b:ident $(: $b_kind:ident $b_tag:literal)?,
        $c:ident $(: $c_kind:ident $c_tag:literal)? $(, $($rest:tt)*)?) => {
        match $value {
            $crate::alternatives::OneOfThree::First($x) => $choice::$a($x),
            $crate::alternatives::OneOfThree::Second($x) => $choice::$b($x),
            $crate::alternatives::OneOfThree::Third($x) => $choice::$c($x),
            $crate::alternatives::OneOfThree::Others(others) => {
                $crate::take_choice!(others; $choice($x); $($($rest)*)?)
            }
        }
    };
    ($value:expr; $choice:ident($x:ident);
        $name:ident $(: $kind:ident $tag:literal)? $(, $($rest:tt)*)?) => {
        match $value {
            $crate::alternatives::OneOf::First($x) => $choice::$name($x),
            $crate::alternatives::OneOf::Other(others) => {
                $crate::take_choice!(others; $choice($x); $($($rest)*)?)
            }
        }
    };
}
