// Whether a follower has missed a release since the snapshot. Two classes were released at 3 and 5, and the quota `q` at 4.
ghost use Rattle.std.specs.Prelude.{◌≡◌};
ghost use Rattle.keyed.specs.Table.{with_slot};

use crate::state::blocked::{BSD, LINUX, Named, class, classes};
use crate::state::made::text;
use crate::state::plans::looked;
use keyed::{NameTable, OwnerTable, Series};
use ns_admin::opening;
use ns_followers::missed;
use ns_tables::{PoolRows, QuotaRows, Tables};
use ns_types::records::{Pool, Quota};
use ns_types::resources::{none, unlimited};
use ns_types::rows::Rows;
use ns_types::snapshot::{QuotaSeen, Snapshot};
use ns_types::text::Text;
use std::alloc::Global;
use std::process::Abort;

fn reserve<V: Drop>(rt: &impl Abort, table: &mut NameTable<V>, name: &Text)
    ensures { table.new ≡ with_slot table.old name.now }
{
    table.reserve(name).expect(rt, "memory");
}

fn put<V: Drop>(rt: &impl Abort, table: &mut NameTable<V>, name: &Text, row: V) {
    reserve(rt, table, name);
    table.set(name, row);
}

/// A table of one row.
pub(crate) fn only_row<V: Drop>(
    rt: &impl Abort,
    alloc: Global,
    name: &str,
    row: V,
) -> NameTable<V> {
    let mut table = NameTable::new(alloc);
    put(rt, &mut table, &text(rt, alloc, name), row);
    table
}

fn pool(rt: &impl Abort, alloc: Global) -> PoolRows {
    let mut classes = Series::new(alloc);
    classes.reserve(2).expect(rt, "memory");
    classes.push((class(rt, alloc, LINUX), 3));
    classes.push((class(rt, alloc, BSD), 5));
    let description = text(rt, alloc, "");
    PoolRows {
        pool: Pool { description },
        release: 5,
        classes,
        nodes: NameTable::new(alloc),
    }
}

fn tables(rt: &impl Abort, alloc: Global) -> Tables {
    let quota = Quota {
        description: text(rt, alloc, ""),
        limits: None,
    };
    let mut tables = opening(alloc).expect(rt, "memory");
    tables.pools = OwnerTable::from_table(only_row(rt, alloc, "default", pool(rt, alloc)));
    tables.quotas = only_row(rt, alloc, "q", QuotaRows { quota, release: 4 });
    tables
}

/// The quota that the follower waits for, if any; its infeasible classes; whether a constraint escapes them; the releases of
/// the pool and of the quota that the snapshot has; and whether the follower has missed a release.
type Case<'a> = (Option<&'a str>, &'a [Named<'a>], bool, [u64; 2], bool);

/// The snapshot, whose evaluation is the follower.
fn kept(rt: &impl Abort, alloc: Global, case: Case) -> Snapshot {
    let (quota, infeasible, escapes, [of_pool, of_quota], _) = case;
    let mut kept = looked(rt, alloc, &[]);
    if let Some(quota) = quota {
        kept.evaluation.quota = Some(text(rt, alloc, quota));
    }
    kept.evaluation.infeasible = classes(rt, alloc, infeasible);
    kept.evaluation.escapes = escapes;
    kept.release = of_pool;
    kept.quota = Some(QuotaSeen {
        name: text(rt, alloc, "q"),
        limits: unlimited(),
        used: none(),
        release: of_quota,
        namespaces: Rows::new(alloc),
    });
    kept
}

static CASES: [Case; 8] = [
    (None, &[], false, [4, 4], true),
    (None, &[], false, [5, 3], false),
    (None, &[BSD], false, [4, 4], false),
    (None, &[BSD], false, [2, 4], true),
    (None, &[BSD], true, [4, 4], true),
    (Some("q"), &[], false, [5, 3], true),
    (Some("q"), &[], false, [0, 4], false),
    (Some("r"), &[], false, [0, 0], false),
];

#[test]
fn a_release_after_the_snapshot_is_missed(rt: HostRuntime) {
    let tables = tables(&rt, rt.alloc());
    for (number, case) in CASES.iter().enumerate() {
        let kept = kept(&rt, rt.alloc(), *case);
        let missed = missed(&tables, &kept, &kept.evaluation);
        assert!(rt; missed == case.4, "case {number}");
    }
}
