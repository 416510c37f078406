//! Encodings that are cut, and encodings in which one octet is changed.

use dercheck::own_types::entry::Entry;
use dercheck::own_types::my_sequence::MySequence;
use dercheck::own_types::reason::Reason;
use dercheck::own_types::signature::Signature;
use dercheck::own_types::some_sequence::SomeSequence;
use dercheck::own_types::time::Time;
use std::alloc::Global;
use std::test::Fail;
use testing::changed::check_all;

#[test]
fn own_types(rt: HostRuntime) -> Result<(), Fail> {
    let alloc = rt.alloc();
    check_all::<Reason>(alloc, &[&[0x0a, 1, 0], &[0x0a, 1, 4]])?;
    check_all::<Time>(
        alloc,
        &[b"\x17\x0d910506234540Z", b"\x18\x0f20500506234540Z"],
    )?;
    check_all::<Signature>(alloc, &[&[0x30, 6, 2, 1, 1, 2, 1, 2]])?;
    check_all::<SomeSequence<'_>>(
        alloc,
        &[
            &[0x30, 0],
            &[0x30, 9, 0x80, 2, 0x61, 0x62, 0xa1, 3, 2, 1, 5],
        ],
    )?;
    check_all::<MySequence>(alloc, &[&[0x30, 7, 6, 2, 0x2a, 3, 2, 1, 7]])?;
    check_all::<Entry>(
        alloc,
        &[
            &[0x30, 7, 6, 2, 0x2a, 3, 2, 1, 7],
            &[
                0x30, 15, 6, 2, 0x2a, 3, 2, 1, 7, 1, 1, 0xff, 0xa0, 3, 2, 1, 2,
            ],
        ],
    )
}
