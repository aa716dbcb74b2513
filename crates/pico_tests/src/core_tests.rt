//! Programs of two cores, SIO and the registers of the bus: where they stop, and the registers of both cores.

use crate::case::{Case, HUNDRED, Held, first_wrong};
use crate::rows::WRITES_CODE;
use std::test::Fail;

const CORES: [Case; 5] = [
    // LDR of RESET_DONE.
    Case {
        image: Held::Code(&[0x4801, 0x6801, 0xbe00, 0x0000, 0xc008, 0x4000]),
        text: b"stop bkpt core0 6\n\
            core0 4000c008 01ffffff * 20042000 ffffffff 20000004 01000000\ncore1 asleep\n",
        ..HUNDRED
    },
    // The launcher gets a wrong third word, and core 1 stays asleep.
    Case {
        image: Held::Code(&[
            0x27d0, 0x063f, 0x6578, 0x6578, 0x2007, 0x6578, 0x6578, 0x4802, 0x6578, 0x4802, 0x6578,
            0xe7fe, 0x1000, 0x2004, 0x0021, 0x2000,
        ]),
        text: b"stop limit 100\n\
            core0 20000021 00000000 00000000 00000000 00000000 00000000 00000000 d0000000 * \
            20042000 ffffffff 20000016 01000000\ncore1 asleep\n",
        ..HUNDRED
    },
    // Core 1 starts in cycle 14. Both cores read spinlock 5 in cycle 19; in cycle 24 core 0 sets bit 0 of GPIO_OUT and core 1
    // inverts it.
    Case {
        image: Held::Code(&[
            0x27d0, 0x063f, 0x6578, 0x6578, 0x2001, 0x6578, 0x6578, 0x4802, 0x6578, 0x4802, 0x6578,
            0xe004, 0x1000, 0x2004, 0x0021, 0x2000, 0xbf00, 0x27d0, 0x063f, 0x2645, 0x00b6, 0x59ba,
            0x0894, 0x231c, 0x1b1b, 0x2501, 0x50fd, 0x693b, 0xbe00,
        ]),
        text: b"stop bkpt core0 26\n\
            core0 20000021 00000000 00000020 00000000 00000008 00000001 00000114 d0000000 * \
            20042000 ffffffff 20000038 21000000\n\
            core1 00000000 00000000 00000000 00000000 00000000 00000001 00000114 d0000000 * \
            20041000 ffffffff 20000038 21000000\n",
        ..HUNDRED
    },
    // Core 0 overwrites the fourth instruction of core 1 in cycle 14, and core 1 fetches it in cycle 17.
    WRITES_CODE,
    // A load from a gap in SIO.
    Case {
        image: Held::Code(&[0x27d0, 0x063f, 0x3780, 0x6838]),
        text: b"stop outside core0 d0000080 3\n\
            core0 00000000 00000000 00000000 00000000 00000000 00000000 00000000 d0000080 * \
            20042000 ffffffff 20000006 81000000\ncore1 asleep\n",
        ..HUNDRED
    },
];

#[test]
fn cores_and_what_they_share(rt: HostRuntime) -> Result<(), Fail> {
    assert_eq!(rt; first_wrong(&rt, rt.alloc(), &CORES)?, None);
    Ok(())
}
