//! Texts.
use std::test::Fail;
use sym_base::Text;

#[test]
fn a_text_that_is_set_again_holds_the_last_bytes_alone(rt: HostRuntime) -> Result<(), Fail> {
    let mut text = Text::from_str(rt.alloc(), "a longer first text")?;
    text.set("second")?;
    assert_eq!(rt; text.as_str(), "second");
    text.set("")?;
    assert_eq!(rt; text.as_str(), "");
    text.set("third, which is longer than the first")?;
    assert_eq!(rt;
        text.into_string().as_str(),
        "third, which is longer than the first"
    );
    Ok(())
}
