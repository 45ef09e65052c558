//! Names of ports and nodes.

use lnet_edge::{InputPort, Name, Wire};
use lnet_names::Names;
use lnet_nodes::{labels_of, put_node};
use std::test::Fail;

#[test]
fn names_by_place(rt: HostRuntime) -> Result<(), Fail> {
    let alloc = rt.alloc();
    let name = Name::new(String::from_str(alloc, "a b")?);
    let names = Names::new(vec![in alloc; None, Some(name)]?, Vec::new(alloc));
    assert_eq!(rt; names.input_count(), 2);
    assert_eq!(rt; names.input_name(1), Some("a b"));
    Ok(())
}

#[test]
fn places_without_names(rt: HostRuntime) -> Result<(), Fail> {
    let unnamed = Names::unnamed(rt.alloc(), 1, 2)?;
    assert_eq!(rt; unnamed.output_count(), 2);
    assert_eq!(rt; unnamed.output_name(1), None);
    Ok(())
}

#[test]
fn nodes_have_names(rt: HostRuntime) -> Result<(), Fail> {
    let alloc = rt.alloc();
    let input = InputPort {
        wire: Wire(7),
        name: None,
    };
    let name = Name::new(String::from_str(alloc, "a")?);
    let labels = labels_of(alloc, &[input], vec![in alloc; name]?)?;
    let mut text = String::new(alloc);
    put_node(&mut text, &labels, 7)?;
    put_node(&mut text, &labels, 12)?;
    assert_eq!(rt; text.as_str(), "a_n12");
    Ok(())
}
