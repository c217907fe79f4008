//! Replies of pools, with their histories.
use super::*;
use ct_rows::Row;
use std::alloc::Global;
use std::process::Abort;
use std::test::Fail;

fn path(alloc: Global, nexts: &[u32]) -> Result<Path, Fail> {
    Ok(Path {
        nexts: Row::from_vec(Vec::from_slice(alloc, nexts)?),
        leaked: Row::from_vec(Vec::from_slice(alloc, &[16])?),
    })
}

fn take(rt: &impl Abort, bag: &mut Bag, seat: u32) -> Taken {
    assert!(rt; bag.may_take(seat), "seat {seat}");
    bag.take(seat)
}

fn counted(waiting: u64, out: u64, done: u64) -> Counts {
    Counts { waiting, out, done }
}

#[test]
fn replies_of_a_pool_with_two_seats(rt: HostRuntime) -> Result<(), Fail> {
    let mut bag = Bag::new(rt.alloc(), 2)?;
    assert_eq!(rt; bag.next_up(), Some(0));
    assert_eq!(rt; take(&rt, &mut bag, 0), Taken::Number(0));
    assert!(rt; !bag.may_take(0));
    assert!(rt; !bag.may_take(2));
    assert_eq!(rt; take(&rt, &mut bag, 1), Taken::NotNow { out: 1 });
    assert_eq!(rt; bag.next_up(), None);
    let kids = vec![in rt.alloc(); path(rt.alloc(), &[4])?, path(rt.alloc(), &[8])?]?;
    assert_eq!(rt; bag.split(0, 0, kids).ok(), Some(1));
    assert_eq!(rt; bag.counts(), counted(1, 1, 1));
    assert_eq!(rt; take(&rt, &mut bag, 1), Taken::Number(2));
    assert_eq!(rt; bag.close(1, 1).err(), Some(NotYours { holder: Some(0) }));
    assert_eq!(rt; bag.close(0, 1), Ok(()));
    assert_eq!(rt; bag.close(1, 2), Ok(()));
    assert_eq!(rt; take(&rt, &mut bag, 0), Taken::Finished);
    assert!(rt; !bag.may_take(0));
    assert_eq!(rt; bag.counts(), counted(0, 0, 3));
    let calls = [
        (0, PoolCall::Took(0)),
        (
            0,
            PoolCall::Split {
                number: 0,
                first: 1,
                count: 2,
            },
        ),
        (1, PoolCall::Took(2)),
        (0, PoolCall::Closed(1)),
        (1, PoolCall::Closed(2)),
        (0, PoolCall::Finished),
    ];
    assert_eq!(rt; bag.history().len(), calls.len());
    for (entry, (seat, call)) in bag.history().iter().zip(calls.iter()) {
        assert_eq!(rt;
            *entry,
            Entered {
                seat: *seat,
                call: *call
            }
        );
    }
    Ok(())
}

#[test]
fn kids_are_kept_in_order_or_handed_back(rt: HostRuntime) -> Result<(), Fail> {
    let mut bag = Bag::new(rt.alloc(), 1)?;
    let kids = vec![in rt.alloc(); path(rt.alloc(), &[4])?]?;
    match bag.split(0, 9, kids) {
        Err(SplitRefusal::NotYours { holder, kids }) => {
            assert_eq!(rt; holder, None);
            assert_eq!(rt; kids.len(), 1);
        }
        Ok(first) => assert_eq!(rt; first, 9, "the path isn't out"),
        Err(SplitRefusal::Memory { kids }) => {
            assert_eq!(rt; kids.len(), 9, "the path isn't out")
        }
    }
    assert_eq!(rt; take(&rt, &mut bag, 0), Taken::Number(0));
    let kids = vec![in rt.alloc();
        path(rt.alloc(), &[4])?,
        path(rt.alloc(), &[8])?,
        path(rt.alloc(), &[12])?,
    ]?;
    assert_eq!(rt; bag.split(0, 0, kids).ok(), Some(1));
    assert_eq!(rt; bag.counts(), counted(2, 1, 1));
    assert_eq!(rt; bag.next_up(), Some(3));
    assert_eq!(rt; bag.give_back(0, 1), Ok(()));
    assert_eq!(rt; bag.next_up(), Some(1));
    assert!(rt; !bag.may_take(0));
    assert_eq!(rt; bag.give_back(0, 1), Err(NotYours { holder: None }));
    Ok(())
}
