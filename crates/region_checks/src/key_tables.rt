//! A table of keys against a plain list of them, by drawn calls. All keys begin at one place.

ghost use Rattle.std.specs.Prelude.{◌≡◌, ◌<◌};
ghost use Rattle.key_table.specs.Slots.{keys_len};

use crate::draws::Draws;
use key_table::KeyTable;
use std::alloc::{AllocError, Global};

#[derive(Drop)]
struct PlainKeys {
    keys: Vec<(u64, u32)>,
}

impl PlainKeys {
    fn find(&self, key: u64) -> Option<u32> {
        for entry in &self.keys {
            if entry.0 == key {
                return Some(entry.1);
            }
        }
        None
    }
}

// The key whose product with the table's factor is `number * 2^42`, so that its first place is 0 in each table of up to
// 1,024 places.
fn key(number: u32) -> u64 {
    (number as u64)
        .wrapping_mul(4_398_046_511_104)
        .wrapping_mul(17_428_512_612_931_826_493)
}

// A table with the number of its keys and of those that it has room for.
#[derive(Drop)]
struct Counted {
    table: KeyTable,
    count: u32,
    most: u32,
    ghost counts: { (count ≡ keys_len table) × (most ≡ table.most) },
}

impl Counted {
    // An insertion where the key is not there and the table not full, a removal where it is there, or nothing.
    fn change(
        &mut self,
        plain: &mut PlainKeys,
        key: u64,
        region: u32,
        removes: bool,
    ) -> Result<(), AllocError> {
        match self.table.find(key) {
            None => {
                if !removes && self.count < self.most {
                    self.table.insert(key, region);
                    self.count += 1;
                    plain.keys.push((key, region))?;
                }
            }
            Some(_) => {
                if removes {
                    self.table.remove(key);
                    self.count -= 1;
                    plain.keys.retain(|entry| entry.0 != key);
                }
            }
        }
        Ok(())
    }

    // Whether each of so many keys has the same region in both, or none in both.
    fn is_same(&self, plain: &PlainKeys, keys: u32) -> bool {
        for number in 0..keys {
            if self.table.find(key(number)) != plain.find(key(number)) {
                return false;
            }
        }
        true
    }
}

// The first of 10,000 drawn calls after which a table for so many keys is not as a plain list. A table of up to eight
// keys is compared whole after each call, a larger one at the call's key, and whole after each 500th call.
fn first_difference(alloc: Global, most: u32) -> Result<Option<u32>, AllocError>
    requires { (0 < most) × (most < 513) }
{
    let mut counted = Counted {
        table: KeyTable::new(alloc, most)?,
        count: 0,
        most,
    };
    let mut plain = PlainKeys {
        keys: Vec::new(alloc),
    };
    let mut draws = Draws { state: 1 };
    let keys = 2 * most + 1;
    for call in 0..10_000 {
        let number = draws.below(keys);
        let region = draws.below(most);
        let removes = draws.below(3) == 0;
        counted.change(&mut plain, key(number), region, removes)?;
        let whole = most < 9 || call % 500 == 0;
        let same = counted.table.find(key(number)) == plain.find(key(number));
        if !same || whole && !counted.is_same(&plain, keys) {
            return Ok(Some(call));
        }
    }
    Ok(None)
}

#[test]
fn a_table_is_as_a_plain_list(rt: HostRuntime) -> Result<(), AllocError> {
    assert_eq!(rt; first_difference(rt.alloc(), 1)?, None);
    assert_eq!(rt; first_difference(rt.alloc(), 2)?, None);
    assert_eq!(rt; first_difference(rt.alloc(), 8)?, None);
    assert_eq!(rt; first_difference(rt.alloc(), 512)?, None);
    Ok(())
}
