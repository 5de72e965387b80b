//! The forms of list cells.
use std::alloc::Global;
use std::test::Fail;
use sym_base::{NoMemory, Text};
use sym_vector::ListForm;

fn words(alloc: Global, source: &[&str]) -> Result<ListForm<Text>, NoMemory> {
    let mut form = ListForm::same(alloc);
    for word in source {
        form = form.push(alloc, Text::from_str(alloc, word)?)?;
    }
    Ok(form)
}

/// The elements that a form adds.
fn added<'a>(alloc: Global, form: &'a ListForm<Text>) -> Result<Vec<&'a str>, NoMemory> {
    let mut added = Vec::new(alloc);
    'elements: for place in 0..form.len() {
        if let Some(word) = form.at(place) {
            added.push(word.as_str())?;
        }
    }
    Ok(added)
}

#[test]
fn elements_stand_in_the_order_in_which_they_were_pushed(rt: HostRuntime) -> Result<(), Fail> {
    let alloc = rt.alloc();
    let form = words(alloc, &["a", "b"])?;
    assert_eq!(rt; (form.len(), form.is_empty()), (2, false));
    assert_eq!(rt; added(alloc, &form)?.as_slice(), ["a", "b"].as_slice());
    assert!(rt; form.at(2).is_none(), "found a third element of 2");
    assert_eq!(rt; ListForm::<Text>::same(alloc).is_empty(), true);
    Ok(())
}

#[test]
fn a_form_after_another_has_the_elements_of_the_left_one_first(
    rt: HostRuntime,
) -> Result<(), Fail> {
    let alloc = rt.alloc();
    let both = words(alloc, &["c"])?.through(alloc, &words(alloc, &["a", "b"])?, &())?;
    assert_eq!(rt; added(alloc, &both)?.as_slice(), ["a", "b", "c"].as_slice());
    let moved = words(alloc, &["c"])?.go_through(words(alloc, &["a", "b"])?, &())?;
    assert_eq!(rt;
        added(alloc, &moved)?.as_slice(),
        ["a", "b", "c"].as_slice()
    );
    Ok(())
}

#[test]
fn a_copy_is_equal_and_fixing_a_number_leaves_texts(rt: HostRuntime) -> Result<(), Fail> {
    let alloc = rt.alloc();
    let form = words(alloc, &["a", "b"])?;
    let copied = form.copy(alloc)?;
    assert_eq!(rt; added(alloc, &copied)?.as_slice(), ["a", "b"].as_slice());
    let mut fixed = form.fixed(alloc, 0, 4)?;
    assert_eq!(rt; added(alloc, &fixed)?.as_slice(), ["a", "b"].as_slice());
    fixed.fix(0, 4);
    assert_eq!(rt; added(alloc, &fixed)?.as_slice(), ["a", "b"].as_slice());
    Ok(())
}
