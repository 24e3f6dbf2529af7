use crate::tests::same;
use ob_rights::{Fault, code_of};
use std::test::Fail;

#[test]
fn refusals_say_why(rt: HostRuntime) -> Result<(), Fail> {
    let text = format!(in rt.alloc(); "{}", Fault::Access)?;
    same(&rt, text.as_str(), "access is denied");
    same(&rt, code_of(Fault::Access), 5);
    Ok(())
}
