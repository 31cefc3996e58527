// What the absent fields of an arc's record say.
ghost use Rattle.link_fields.specs.Fields.{arc_before, AbsentSays};

use table::links::Arc;

// The fields that a record's absent fields say: an implied head may be 65536.
#[derive(Clone, Copy)]
pub struct Absent {
    pub tail: usize,
    pub head: usize,
    pub length: usize,
}

// What a record says where its fields are absent. Of the first record, which has them all, nothing is read of it, and it is 0.
pub fn implied(previous: Option<Arc>) -> Absent
    ensures { AbsentSays (arc_before previous) result }
{
    match previous {
        None => Absent {
            tail: 0,
            head: 0,
            length: 0,
        },
        Some(p) => Absent {
            tail: usize::from(p.tail),
            head: usize::from(p.head) + 1,
            length: p.length as usize,
        },
    }
}
