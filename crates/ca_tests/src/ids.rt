//! A wire id comes again once its index was used 65,536 times, under another handle.
use ca_arena::Handle;
use ca_ids::IdTable;
use std::test::Fail;

#[test]
fn an_id_comes_round_under_another_handle(rt: HostRuntime) -> Result<(), Fail> {
    let mut table = IdTable::new(rt.alloc());
    for round in 0..65_536u32 {
        let (handle, wire) = table.open(round).map_err(|(_, refusal)| refusal)?;
        assert!(rt; table.by_wire(wire)? == handle);
        assert_eq!(rt; table.retire(handle)?, round);
        table.drained(wire)?;
    }
    let (handle, wire) = table.open(0).map_err(|(_, refusal)| refusal)?;
    assert_eq!(rt; wire.number(), 0x0001_0000);
    assert!(rt;
        handle
            == Handle {
                index: 0,
                generation: 65_537
            }
    );
    assert!(rt;
        table
            .by_handle(Handle {
                index: 0,
                generation: 1
            })
            .is_none()
    );
    Ok(())
}
