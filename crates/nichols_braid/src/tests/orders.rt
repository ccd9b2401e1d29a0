use super::{rows, whole_table};
use crate::{Braid, Order};
use nichols_field::Field;
use std::test::Fail;

#[test]
fn lists_of_letters(rt: HostRuntime) -> Result<(), Fail> {
    let lists: [(u8, &[i64], Option<u32>); 14] = [
        (1, &[1], None),
        (3, &[1, 2, 3], None),
        (3, &[3, 1, 2], None),
        (4, &[2, 3, 1, 4], None),
        (3, &[], Some(1)),
        (3, &[1, 1, 2], Some(2)),
        (3, &[1, 2], Some(3)),
        (3, &[1, 2, 3, 1], Some(4)),
        (3, &[1, 2, 3, 4], Some(4)),
        (3, &[1, 4, 2], Some(2)),
        (3, &[2, 1, 0], Some(3)),
        (3, &[-1, 2, 3], Some(1)),
        (3, &[2, 258, 1, 3], Some(2)),
        (2, &[2, 2, 1, 1], Some(2)),
    ];
    for (letters, list, want) in lists {
        if 1 <= letters && letters <= 4 {
            let place = match Order::new(letters, list) {
                Ok(order) => {
                    let same = order
                        .list()
                        .iter()
                        .zip(list)
                        .all(|(a, v)| i64::from(*a) == *v);
                    assert!(rt; same && order.list().len() == list.len());
                    None
                }
                Err(place) => Some(place),
            };
            assert_eq!(rt; place, want, "at a list of {}", list.len());
        }
    }
    assert!(rt; Order::plain(3).list() == [1, 2, 3].as_slice());
    Ok(())
}

/// Four letters over five elements, each of which sends 1 to 2 to 3 to 4 to 1, with `q(i, j) = j`.
#[test]
fn ranks_of_four_letters(rt: HostRuntime) -> Result<(), Fail> {
    let alloc = rt.alloc();
    let field = Field::new(5).map_err(|_| "no field")?;
    let rack = rows(
        alloc,
        &[&[2, 3, 4, 1], &[2, 3, 4, 1], &[2, 3, 4, 1], &[2, 3, 4, 1]],
    )?;
    let scalars = whole_table(
        alloc,
        field,
        &[&[1, 2, 3, 4], &[1, 2, 3, 4], &[1, 2, 3, 4], &[1, 2, 3, 4]],
    )?;
    let braid = Braid::new(alloc, field, rack.as_slice(), &scalars).map_err(|_| "refused")?;
    let order = Order::new(4, &[2, 3, 1, 4]).map_err(|_| "no order")?;
    let ranks: [(u8, u8, u8, u32); 4] = [(1, 2, 2, 2), (2, 3, 4, 3), (3, 1, 1, 1), (4, 4, 3, 4)];
    if order.list().len() == 4 && braid.letters() == 4 {
        let by_rank = braid.relabel(alloc, &order)?;
        assert_eq!(rt; by_rank.field().modulus(), 5);
        assert_eq!(rt; by_rank.letters(), 4);
        for (rank, letter, image, scalar) in ranks {
            if 1 <= rank && rank <= 4 && 1 <= letter && letter <= 4 && by_rank.letters() == 4 {
                assert_eq!(rt; order.letter(rank), letter);
                assert_eq!(rt; order.rank(letter), rank);
                for other in 1..5 {
                    assert_eq!(rt; by_rank.braid_at(other, rank), (image, other, scalar));
                }
            }
        }
    }
    Ok(())
}
