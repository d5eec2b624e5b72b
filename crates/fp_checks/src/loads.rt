use fp_main::{scenario_text, source_text};
use std::test::Fail;

const SOURCE: &str = "module Gen {
  port P(a: U32)
  active component W { async input port feed: P block; output port next: P }
  instance w0: W base id 0 queue size 4
  instance w1: W base id 1 queue size 4
  topology T {
    instance w0
    instance w1
    connections Chain {
      w0.next -> w1.feed
    }
  }
}
";

const FIRST: &str =
    r#"{"steps":20000,"callers":[{"name":"k","do":[{"call":"Gen.w0.feed","with":[0]},{"call":"Gen.w0.feed","with":[1]},"#;

const LAST: &str = concat!(
    r#",{"call":"Gen.w0.feed","with":[99]}]}],"#,
    r#""handlers":[{"of":"Gen.W","on":"port feed","do":[{"call":"next","with":[{"$":"a"}]}]},"#,
    r#"{"of":"Gen.w1","on":"port feed","do":[]}]}"#,
    "\n"
);

#[test]
fn a_load_of_two(rt: HostRuntime) -> Result<(), Fail> {
    let source = source_text(rt.alloc(), 2)?;
    assert!(rt; source.as_slice() == SOURCE.as_bytes());
    let scenario = scenario_text(rt.alloc(), 2)?;
    assert!(rt; scenario.as_slice().starts_with(FIRST.as_bytes()));
    assert!(rt; scenario.as_slice().ends_with(LAST.as_bytes()));
    Ok(())
}
