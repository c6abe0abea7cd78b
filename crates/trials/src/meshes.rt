use mesh::{Heading, Mesh, MeshRefusal, Node};
use std::test::Fail;

#[test]
fn along_x_then_y_then_out(rt: HostRuntime) -> Result<(), Fail> {
    let mut channels = [99; 5];
    let hops = Mesh::new(3)?.route(Node { x: 0, y: 0 }, Node { x: 2, y: 1 }, &mut channels)?;
    assert_eq!(rt; hops, 4);
    // what lies behind the route stays
    assert_eq!(rt; channels, [0, 1, 16, 29, 99]);
    Ok(())
}

#[test]
fn back_along_x_then_y_then_out(rt: HostRuntime) -> Result<(), Fail> {
    let mut channels = [99; 4];
    let hops = Mesh::new(3)?.route(Node { x: 2, y: 1 }, Node { x: 0, y: 0 }, &mut channels)?;
    assert_eq!(rt; hops, 4);
    assert_eq!(rt; channels, [8, 9, 19, 24]);
    Ok(())
}

#[test]
fn one_node_has_one_channel(rt: HostRuntime) -> Result<(), Fail> {
    let mut channels = [99];
    let node = Node { x: 0, y: 0 };
    assert_eq!(rt; Mesh::new(1)?.route(node, node, &mut channels)?, 1);
    assert_eq!(rt; channels, [0]);
    Ok(())
}

#[test]
fn corner_to_corner(rt: HostRuntime) -> Result<(), Fail> {
    let mut channels = [0; 15];
    let mesh = Mesh::new(8)?;
    let (from, to) = (Node { x: 0, y: 0 }, Node { x: 7, y: 7 });
    assert_eq!(rt; mesh.hops(from, to)?, 15);
    assert_eq!(rt; mesh.route(from, to, &mut channels)?, 15);
    assert_eq!(rt; channels[14], 287);
    Ok(())
}

#[test]
fn a_list_too_short_by_one_stays(rt: HostRuntime) -> Result<(), Fail> {
    let mut channels = [99; 3];
    let answer = Mesh::new(3)?.route(Node { x: 0, y: 0 }, Node { x: 2, y: 1 }, &mut channels);
    assert_eq!(rt; answer, Err(MeshRefusal::ListTooShort));
    assert_eq!(rt; channels, [99; 3]);
    Ok(())
}

#[test]
fn out_of_range(rt: HostRuntime) -> Result<(), Fail> {
    assert!(rt; Mesh::new(0).is_err());
    assert!(rt; Mesh::new(9).is_err());
    let mut channels = [99; 1];
    let far = Node { x: u32::MAX, y: 0 };
    // the node is looked at before the list
    assert_eq!(rt;
        Mesh::new(8)?.route(far, Node { x: 7, y: 7 }, &mut channels),
        Err(MeshRefusal::OutOfRange)
    );
    assert_eq!(rt; channels, [99]);
    Ok(())
}

#[test]
fn channels_end_at_the_edge(rt: HostRuntime) -> Result<(), Fail> {
    let mesh = Mesh::new(3)?;
    assert_eq!(rt;
        mesh.channel(Node { x: 1, y: 2 }, Heading::RisingX),
        Some(5)
    );
    assert_eq!(rt; mesh.channel(Node { x: 2, y: 2 }, Heading::RisingX), None);
    assert_eq!(rt; mesh.channel(Node { x: 0, y: 2 }, Heading::FallingX), None);
    assert_eq!(rt; mesh.channel(Node { x: 3, y: 0 }, Heading::Out), None);
    Ok(())
}
