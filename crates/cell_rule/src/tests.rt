use crate::words::{
    Stub, pack_check, pack_data, pack_target, target_of, unpack_check, unpack_data, unpack_target,
};
use miss_handler::{CallState, Check};
use program::{ClassId, MethodId, Target};
use std::test::Fail;

// Class 7 with method 49, at stamp 1.
const DATA: u64 = 0x0001_0100_7007_0031;

const TARGET: u64 = 0x0001_0000_0001_0031;

const MONO: CallState = CallState::Mono(ClassId(7));

const METHOD: Target = Target::Method(MethodId(49));

#[test]
fn mono_words_are_packed(rt: HostRuntime) -> Result<(), Fail> {
    assert_eq!(rt; pack_data(1, MONO, METHOD), DATA);
    assert_eq!(rt; pack_target(1, Stub::CheckedEntry, METHOD), TARGET);
    assert!(rt; unpack_data(DATA) == Some((1, MONO, METHOD)));
    assert!(rt; unpack_target(TARGET) == Some((1, Stub::CheckedEntry, METHOD)));
    Ok(())
}

#[test]
fn a_target_word_goes_with_its_data_word(rt: HostRuntime) -> Result<(), Fail> {
    assert!(rt; target_of(pack_data(1, MONO, METHOD)) == TARGET);
    Ok(())
}

#[test]
fn a_check_is_packed(rt: HostRuntime) -> Result<(), Fail> {
    let check = Check {
        class: ClassId(7),
        target: METHOD,
    };
    let word = pack_check(check);
    assert!(rt; word == 0x1_0007_0031);
    assert!(rt; unpack_check(word) == Some(check));
    assert!(rt; unpack_check(0).is_none());
    Ok(())
}
