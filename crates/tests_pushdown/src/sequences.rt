use wpds_base::Sequence;

#[test]
fn a_sequence_keeps_its_items(rt: HostRuntime) {
    let sequence = Sequence::from_vec(vec![in rt.alloc(); 3u32, 1, 2].expect(&rt, "an answer"));
    assert_eq!(rt; sequence.len(), 3);
    let again = Sequence::from_vec(sequence.into_vec());
    assert_eq!(rt; again.as_slice(), [3u32, 1, 2].as_slice());
}
