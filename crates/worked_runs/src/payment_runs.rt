//! The example of payments that the repository ships.
use std::test::Fail;
use worked_play::{MATCH, Run, WATCH, count_right};

const PATTERNS: &str = "p ring hom\n\
v 0 Account\n\
v 1 Account\n\
v 2 Account\n\
v 3 Merchant\n\
e 0 1 pays\n\
e 1 2 pays\n\
e 2 0 pays\n\
e 2 3 buys\n\
\n\
p shared iso\n\
v 0 Account\n\
v 1 Account\n\
v 2 Merchant\n\
e 0 2 buys\n\
e 1 2 buys\n";

// Each of the two runs hashes from a seed that no other has.
const ROWS: [Run; 2] = [
    Run {
        seed: 1,
        graph: "# Accounts and merchants.\n\
v 1 Account\n\
v 2 Account\n\
v 3 Account\n\
v 4 Account\n\
v 5 Account\n\
v 90 Merchant\n\
v 91 Merchant\n\
e 1 2 pays\n\
e 2 3 pays\n\
e 4 5 pays\n\
e 3 90 buys\n",
        patterns: PATTERNS,
        updates: "e 5 4 pays\n\
e 3 1 pays\n\
e 1 91 buys\n\
e 3 1 pays\n\
e 4 99 pays\n\
# Account 2 buys from the merchant of account 1.\n\
e 2 91 buys\n\
-e 2 3 pays\n\
-v 90\n",
        out: "+ 2 ring 1 2 3 90\n\
+ 3 ring 2 3 1 91\n\
! 4 exists\n\
! 5 novertex\n\
+ 7 ring 3 1 2 91\n\
+ 7 shared 1 2 91\n\
+ 7 shared 2 1 91\n\
- 8 ring 1 2 3 90\n\
- 8 ring 2 3 1 91\n\
- 8 ring 3 1 2 91\n\
! 9 busy\n\
= 9 5 3\n",
        ..WATCH
    },
    Run {
        seed: u64::MAX,
        graph: "v 1 Account\n\
v 2 Account\n\
v 3 Account\n\
v 4 Account\n\
v 5 Account\n\
v 90 Merchant\n\
v 91 Merchant\n\
e 1 2 pays\n\
e 2 3 pays\n\
e 3 1 pays\n\
e 4 5 pays\n\
e 5 4 pays\n\
e 3 90 buys\n\
e 1 91 buys\n\
e 2 91 buys\n",
        patterns: PATTERNS,
        out: "m ring 1 2 3 90\nm ring 2 3 1 91\nm ring 3 1 2 91\nm shared 1 2 91\nm shared 2 1 91\n= 5\n",
        ..MATCH
    },
];

#[test]
fn payments(rt: HostRuntime) -> Result<(), Fail> {
    assert_eq!(rt; count_right(rt.alloc(), &ROWS)?, ROWS.len());
    Ok(())
}
