//! Laws of the contents octets of INTEGER (X.690 8.3), each the contract of a function that does nothing.

ghost use Rattle.asn1_core.specs.Integer.{
  NumbersHaveOneContent,
  ReadsContentsAlone,
  NineBitsTell,
};

/// Each number has exactly one encoding in contents octets.
pub fn one_content()
    ensures { NumbersHaveOneContent }
{}

/// Reading returns the number that contents octets encode, and rejects all other octets.
pub fn contents_alone_are_read()
    ensures { ReadsContentsAlone }
{}

/// The first nine bits tell whether the first octet is superfluous (X.690 8.3.2).
pub fn nine_bits_tell()
    ensures { NineBitsTell }
{}
