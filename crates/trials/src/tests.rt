use crate::{Counts, Random, add, number, numbers};
use std::test::Fail;

// The first words of the seed 0, as the authors of SplitMix64 give them.
#[test]
fn words_are_those_of_splitmix64(rt: HostRuntime) {
    let mut random = Random::new(0);
    assert_eq!(rt; random.any(), 0xe220_a839_7b1d_cdaf);
    assert_eq!(rt; random.any(), 0x6e78_9e6a_a1b9_65f4);
    assert_eq!(rt; random.any(), 0x06c4_5d18_8009_454f);
}

#[test]
fn counts_are_written_with_a_space_in_front(rt: HostRuntime) -> Result<(), Fail> {
    let mut counts = Counts::<3>::default();
    counts.add(0, 7);
    counts.add(2, 1);
    counts.add(3, 5);
    counts.add(2, u64::MAX);
    let text = format!(in rt.alloc(); "{counts}")?;
    assert_eq!(rt; text.as_str(), " 7 0 18446744073709551615");
    let mut count = 1;
    add(&mut count, 2);
    assert_eq!(rt; count, 3);
    Ok(())
}

#[test]
fn words_that_are_numbers(rt: HostRuntime) -> Result<(), Fail> {
    assert_eq!(rt; number("5000"), Some(5000));
    assert_eq!(rt; number("18446744073709551616"), None);
    assert_eq!(rt; number("five"), None);
    // A test is called with no words.
    assert!(rt; numbers(&rt)?.is_empty());
    Ok(())
}
