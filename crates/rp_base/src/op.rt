//! The instructions of ARMv6-M, one variant for each pair of a bit pattern of the encoding tables and an operation
//! that the pattern names (ARMv6-M Architecture Reference Manual, A5.2 and A5.3).
//!
//! A field holds the bits of the operand letter of that name, from high to low, as they stand in the encoding: a
//! register number, or a number that is not scaled yet. The high bit `D` of a register number is its bit 3.

/// One decoded instruction. Register fields are `d` (destination), `n` and `m` (operands) and `t` (transferred);
/// `i` is the immediate number as encoded, `l` a register list, bit k for Rk.
#[derive(Clone, Copy, PartialEq, Eq)]
pub enum Op {
    /// LSLS Rd, Rm, #i; `i` is 0 to 31, and 0 is MOVS Rd, Rm.
    LslImm { i: u8, m: u8, d: u8 },
    /// LSRS Rd, Rm, #i; 0 stands for 32.
    LsrImm { i: u8, m: u8, d: u8 },
    /// ASRS Rd, Rm, #i; 0 stands for 32.
    AsrImm { i: u8, m: u8, d: u8 },
    /// ADDS Rd, Rn, Rm.
    AddReg { m: u8, n: u8, d: u8 },
    /// SUBS Rd, Rn, Rm.
    SubReg { m: u8, n: u8, d: u8 },
    /// ADDS Rd, Rn, #i with 3 bits.
    AddImm3 { i: u8, n: u8, d: u8 },
    /// SUBS Rd, Rn, #i with 3 bits.
    SubImm3 { i: u8, n: u8, d: u8 },
    /// MOVS Rd, #i.
    MovImm { d: u8, i: u8 },
    /// CMP Rd, #i.
    CmpImm { d: u8, i: u8 },
    /// ADDS Rd, #i with 8 bits.
    AddImm8 { d: u8, i: u8 },
    /// SUBS Rd, #i with 8 bits.
    SubImm8 { d: u8, i: u8 },
    /// ANDS Rd, Rm.
    And { m: u8, d: u8 },
    /// EORS Rd, Rm.
    Eor { m: u8, d: u8 },
    /// LSLS Rd, Rm by register.
    LslReg { m: u8, d: u8 },
    /// LSRS Rd, Rm by register.
    LsrReg { m: u8, d: u8 },
    /// ASRS Rd, Rm by register.
    AsrReg { m: u8, d: u8 },
    /// ADCS Rd, Rm.
    Adc { m: u8, d: u8 },
    /// SBCS Rd, Rm.
    Sbc { m: u8, d: u8 },
    /// RORS Rd, Rm.
    Ror { m: u8, d: u8 },
    /// TST Rd, Rm.
    Tst { m: u8, d: u8 },
    /// RSBS Rd, Rm, #0.
    Rsb { m: u8, d: u8 },
    /// CMP Rd, Rm on low registers.
    Cmp { m: u8, d: u8 },
    /// CMN Rd, Rm.
    Cmn { m: u8, d: u8 },
    /// ORRS Rd, Rm.
    Orr { m: u8, d: u8 },
    /// MULS Rd, Rm, Rd.
    Mul { m: u8, d: u8 },
    /// BICS Rd, Rm.
    Bic { m: u8, d: u8 },
    /// MVNS Rd, Rm.
    Mvn { m: u8, d: u8 },
    /// ADD Rd, Rm on all registers.
    AddHigh { d: u8, m: u8 },
    /// CMP Rd, Rm on all registers.
    CmpHigh { d: u8, m: u8 },
    /// MOV Rd, Rm on all registers.
    MovHigh { d: u8, m: u8 },
    /// BX Rm.
    Bx { m: u8 },
    /// BLX Rm.
    Blx { m: u8 },
    /// LDR Rt, [PC, #4i].
    LdrLit { t: u8, i: u8 },
    /// STR Rt, [Rn, Rm].
    StrReg { m: u8, n: u8, t: u8 },
    /// STRH Rt, [Rn, Rm].
    StrhReg { m: u8, n: u8, t: u8 },
    /// STRB Rt, [Rn, Rm].
    StrbReg { m: u8, n: u8, t: u8 },
    /// LDRSB Rt, [Rn, Rm].
    LdrsbReg { m: u8, n: u8, t: u8 },
    /// LDR Rt, [Rn, Rm].
    LdrReg { m: u8, n: u8, t: u8 },
    /// LDRH Rt, [Rn, Rm].
    LdrhReg { m: u8, n: u8, t: u8 },
    /// LDRB Rt, [Rn, Rm].
    LdrbReg { m: u8, n: u8, t: u8 },
    /// LDRSH Rt, [Rn, Rm].
    LdrshReg { m: u8, n: u8, t: u8 },
    /// STR Rt, [Rn, #4i].
    StrImm { i: u8, n: u8, t: u8 },
    /// LDR Rt, [Rn, #4i].
    LdrImm { i: u8, n: u8, t: u8 },
    /// STRB Rt, [Rn, #i].
    StrbImm { i: u8, n: u8, t: u8 },
    /// LDRB Rt, [Rn, #i].
    LdrbImm { i: u8, n: u8, t: u8 },
    /// STRH Rt, [Rn, #2i].
    StrhImm { i: u8, n: u8, t: u8 },
    /// LDRH Rt, [Rn, #2i].
    LdrhImm { i: u8, n: u8, t: u8 },
    /// STR Rt, [SP, #4i].
    StrSp { t: u8, i: u8 },
    /// LDR Rt, [SP, #4i].
    LdrSp { t: u8, i: u8 },
    /// ADR Rd, PC + 4i.
    Adr { d: u8, i: u8 },
    /// ADD Rd, SP, #4i.
    AddSp { d: u8, i: u8 },
    /// ADD SP, #4i.
    AddSpImm { i: u8 },
    /// SUB SP, #4i.
    SubSpImm { i: u8 },
    /// SXTH Rd, Rm.
    Sxth { m: u8, d: u8 },
    /// SXTB Rd, Rm.
    Sxtb { m: u8, d: u8 },
    /// UXTH Rd, Rm.
    Uxth { m: u8, d: u8 },
    /// UXTB Rd, Rm.
    Uxtb { m: u8, d: u8 },
    /// PUSH of the list `l`, and of LR where `r` is true.
    Push { r: bool, l: u8 },
    /// POP of the list `l`, and of PC where `r` is true.
    Pop { r: bool, l: u8 },
    /// CPSIE i.
    Cpsie,
    /// CPSID i.
    Cpsid,
    /// REV Rd, Rm.
    Rev { m: u8, d: u8 },
    /// REV16 Rd, Rm.
    Rev16 { m: u8, d: u8 },
    /// REVSH Rd, Rm.
    Revsh { m: u8, d: u8 },
    /// BKPT #i.
    Bkpt { i: u8 },
    /// NOP, and the hints that the table gives no operation.
    Nop,
    /// YIELD, which acts as NOP.
    Yield,
    /// WFE.
    Wfe,
    /// WFI.
    Wfi,
    /// SEV.
    Sev,
    /// STM Rn!, the list `l`.
    Stm { n: u8, l: u8 },
    /// LDM Rn!, the list `l`.
    Ldm { n: u8, l: u8 },
    /// B on condition `c`, 0 to 13; `i` is a signed byte, in halfwords.
    BCond { c: u8, i: u8 },
    /// UDF #i.
    Udf { i: u8 },
    /// SVC #i.
    Svc { i: u8 },
    /// B; `i` is a signed 11-bit number, in halfwords.
    B { i: u16 },
    /// BL; `s` is the sign bit S, `i` the 21 bits of both number fields, `j` the two bits J1 and J2.
    Bl { s: bool, i: u32, j: u8 },
    /// MSR to the special register `s` from Rn.
    Msr { n: u8, s: u8 },
    /// MRS Rd from the special register `s`.
    Mrs { d: u8, s: u8 },
    /// DSB.
    Dsb,
    /// DMB.
    Dmb,
    /// ISB.
    Isb,
    /// Every pair of halfwords that no pattern fits.
    Undefined,
}
