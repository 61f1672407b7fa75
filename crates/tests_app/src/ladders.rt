use ladder::{ladder, ladders_are_documents};
use std::alloc::AllocError;

const ONE: &str = "wpds 1
weights cost 1000000000
controls p
symbols e0 m0 x0 e1
rule p e0 -> p e1 m0 : 0
rule p m0 -> p e1 x0 : 0
rule p x0 -> p : 0
rule p e1 -> p : 1
query p: e0 => p:
";

#[test]
fn writes_the_ladder_of_one_rung(rt: HostRuntime) -> Result<(), AllocError> {
    ladders_are_documents();
    match ladder(rt.alloc(), 1) {
        Ok(text) => assert_eq!(rt; text.as_bytes(), ONE.as_bytes()),
        Err(_) => assert!(rt; false),
    }
    Ok(())
}
