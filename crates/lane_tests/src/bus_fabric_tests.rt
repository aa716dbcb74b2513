//! Worked values.

ghost use Rattle.bus_fabric.specs.Masters.{HavePorts};

use bus_fabric::Fabric;
use rp_base::Master;

/// A read and a write on a port.
const R0: Option<(u8, bool)> = Some((0, false));

const W0: Option<(u8, bool)> = Some((0, true));

const R3: Option<(u8, bool)> = Some((3, false));

const W7: Option<(u8, bool)> = Some((7, true));

const READ: Option<(u8, bool)> = Some((6, false));

const WRITE: Option<(u8, bool)> = Some((6, true));

/// BUS_PRIORITY, what the masters ask for, and whose accesses are done, a digit for each master, each in a cycle without a hold.
const CYCLES: [(u32, [Option<(u8, bool)>; 4], u8); 9] = [
    (0, [None, None, None, None], 0b0000),
    (0, [None, R0, None, None], 0b0100),
    (0, [R0, R3, None, W7], 0b1101),
    (0, [W0, R0, R0, W0], 0b1000),
    (0, [R3, R0, R0, W0], 0b1100),
    (0, [None, None, W7, W7], 0b0010),
    (0x1000, [R0, R0, R0, W0], 0b0001),
    (0x0110, [R0, R0, R0, W0], 0b0100),
    (0x0100, [R0, R3, R0, R3], 0b0110),
];

/// What the masters ask for in a cycle gives this, and then the fabric holds an access, or not.
fn grants(fabric: &mut Fabric, asked: &[Option<(u8, bool)>; 4], done: u8, holds: bool) -> bool
    requires { HavePorts asked.now }
{
    let wanted = [done & 8 != 0, done & 4 != 0, done & 2 != 0, done & 1 != 0];
    fabric.grant(asked) == wanted && fabric.holds() == holds
}

#[test]
fn at_once(rt: HostRuntime) {
    for (priority, asked, done) in CYCLES {
        let mut fabric = Fabric::new();
        fabric.set_priority(priority);
        assert!(rt; grants(&mut fabric, &asked, done, false));
    }
}

/// Four masters' requests in turn, and whose accesses are done: reads and writes on APB.
const LASTING: [([Option<(u8, bool)>; 4], u8, bool); 12] = [
    ([READ, WRITE, None, None], 0b0000, true),
    ([READ, WRITE, R0, None], 0b0010, true),
    ([READ, WRITE, None, None], 0b1000, false),
    ([None, WRITE, None, None], 0b0000, true),
    ([None, WRITE, None, None], 0b0000, true),
    ([READ, WRITE, None, None], 0b0000, true),
    ([READ, WRITE, None, None], 0b0100, false),
    ([None, None, READ, None], 0b0000, true),
    ([None, READ, R0, None], 0b0010, true),
    ([None, READ, READ, None], 0b0000, false),
    ([None, READ, READ, None], 0b0000, true),
    ([None, READ, READ, None], 0b0000, true),
];

#[test]
fn lasting(rt: HostRuntime) {
    let mut fabric = Fabric::new();
    for (asked, done, holds) in LASTING {
        assert!(rt; grants(&mut fabric, &asked, done, holds));
    }
}

/// Four masters' requests in turn, and whose accesses are done: on a bank of SRAM, whose masters take turns.
const TURNS: [([Option<(u8, bool)>; 4], u8); 8] = [
    ([R0, R0, R0, W0], 0b1000),
    ([R0, R0, R0, W0], 0b0100),
    ([R0, R0, R0, W0], 0b0010),
    ([R0, R0, R0, W0], 0b0001),
    ([R0, R0, R0, W0], 0b1000),
    ([None, None, R0, None], 0b0010),
    // the bank's last master is the DMA engine's read
    ([R0, None, None, W0], 0b0001),
    ([R0, None, None, None], 0b1000),
];

#[test]
fn turns(rt: HostRuntime) {
    let mut fabric = Fabric::new();
    for (asked, done) in TURNS {
        assert!(rt; grants(&mut fabric, &asked, done, false));
    }
    assert!(rt; fabric.grant_core0(R0));
    let asked = [R0, R0, R3, W0];
    assert!(rt; grants(&mut fabric, &asked, 0b0110, false));
    fabric.served(0, Master::DmaRead);
    assert!(rt; grants(&mut fabric, &[R0, R0, R0, W0], 0b0001, false));
    fabric.set_priority(0xffff_ffff);
    assert_eq!(rt; fabric.priority(), 0x1111);
}
