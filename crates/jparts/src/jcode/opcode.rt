ghost use Rattle.std.specs.Prelude.{◌≡◌, ◌≤◌};
ghost use Rattle.jparts.specs.jcode.Opcodes;
ghost use Rattle.jparts.specs.ProofNames;
ghost use Rattle.jparts.specs.jcode.Opcodes.{division_number, head_number, one_number, ref_test_number, return_number, slot_base, two_number};
ghost use Rattle.jparts.specs.ProofNames.{cast_number, object_number, op_head};
ghost use Rattle.jparts.specs.declared.jcode.op.Op.TheVariants as ops;
ghost use Rattle.jparts.specs.jcode.Instructions.{local_parts, parts};
ghost use Rattle.jparts.specs.declared.jcode.head.Head.TheVariants as heads;

use crate::jcode::head::{BranchHead, ByteHead, Head, IndexHead, OneByteOp, OtherHead};
use crate::jcode::names::{
    Access, CallOp, CastOp, Element, FieldOp, LocalKind, ObjectOp, RefTest, Returned, Slot,
    SmallInt, SmallLong,
};
use crate::jcode::op::{Goto, IntConst, Ldc, LocalOp, NewOp, Op, Switch};
use jvalues::jnames::{Compare, Division, OpOne, OpTwo, Shuffle};

fn slot_step(slot: Slot) -> u8
    ensures step { result ≡ Opcodes.slot_step slot }
    ensures low { result ≤ 3 }
{
    match slot {
        Slot::Zero => 0,
        Slot::One => 1,
        Slot::Two => 2,
        Slot::Three => 3,
    }
}

fn int_step(n: SmallInt) -> u8
    ensures step { result ≡ Opcodes.int_step n }
    ensures low { result ≤ 6 }
{
    match n {
        SmallInt::MinusOne => 0,
        SmallInt::Zero => 1,
        SmallInt::One => 2,
        SmallInt::Two => 3,
        SmallInt::Three => 4,
        SmallInt::Four => 5,
        SmallInt::Five => 6,
    }
}

fn long_step(n: SmallLong) -> u8
    ensures step { result ≡ Opcodes.long_step n }
    ensures low { result ≤ 1 }
{
    match n {
        SmallLong::Zero => 0,
        SmallLong::One => 1,
    }
}

fn element_step(element: Element) -> u8
    ensures step { result ≡ Opcodes.element_step element }
    ensures low { result ≤ 7 }
{
    match element {
        Element::Int => 0,
        Element::Long => 1,
        Element::Ref => 4,
        Element::Byte => 5,
        Element::Char => 6,
        Element::Short => 7,
    }
}

fn shuffle_step(op: Shuffle) -> u8
    ensures step { result ≡ Opcodes.shuffle_step op }
    ensures low { result ≤ 8 }
{
    match op {
        Shuffle::Pop => 0,
        Shuffle::Pop2 => 1,
        Shuffle::Dup => 2,
        Shuffle::DupX1 => 3,
        Shuffle::DupX2 => 4,
        Shuffle::Dup2 => 5,
        Shuffle::Dup2X1 => 6,
        Shuffle::Dup2X2 => 7,
        Shuffle::Swap => 8,
    }
}

fn compare_step(test: Compare) -> u8
    ensures step { result ≡ Opcodes.compare_step test }
    ensures low { result ≤ 5 }
{
    match test {
        Compare::Eq => 0,
        Compare::Ne => 1,
        Compare::Lt => 2,
        Compare::Ge => 3,
        Compare::Gt => 4,
        Compare::Le => 5,
    }
}

fn field_step(op: FieldOp) -> u8
    ensures step { result ≡ ProofNames.field_step op }
    ensures low { result ≤ 3 }
{
    match op {
        FieldOp::GetStatic => 0,
        FieldOp::PutStatic => 1,
        FieldOp::GetField => 2,
        FieldOp::PutField => 3,
    }
}

fn call_step(op: CallOp) -> u8
    ensures step { result ≡ ProofNames.call_step op }
    ensures low { result ≤ 2 }
{
    match op {
        CallOp::Virtual => 0,
        CallOp::Special => 1,
        CallOp::Static => 2,
    }
}

fn slot_base(kind: LocalKind, access: Access) -> u8
    ensures step { result ≡ slot_base kind access }
    ensures low { result ≤ 0x4b }
{
    match (kind, access) {
        (LocalKind::Int, Access::Load) => 0x1a,
        (LocalKind::Long, Access::Load) => 0x1e,
        (LocalKind::Ref, Access::Load) => 0x2a,
        (LocalKind::Int, Access::Store) => 0x3b,
        (LocalKind::Long, Access::Store) => 0x3f,
        (LocalKind::Ref, Access::Store) => 0x4b,
    }
}

fn two_number(op: OpTwo) -> u8
    ensures { result ≡ two_number op }
{
    match op {
        OpTwo::Iadd => 0x60,
        OpTwo::Ladd => 0x61,
        OpTwo::Isub => 0x64,
        OpTwo::Lsub => 0x65,
        OpTwo::Imul => 0x68,
        OpTwo::Lmul => 0x69,
        OpTwo::Ishl => 0x78,
        OpTwo::Lshl => 0x79,
        OpTwo::Ishr => 0x7a,
        OpTwo::Lshr => 0x7b,
        OpTwo::Iushr => 0x7c,
        OpTwo::Lushr => 0x7d,
        OpTwo::Iand => 0x7e,
        OpTwo::Land => 0x7f,
        OpTwo::Ior => 0x80,
        OpTwo::Lor => 0x81,
        OpTwo::Ixor => 0x82,
        OpTwo::Lxor => 0x83,
        OpTwo::Lcmp => 0x94,
    }
}

fn division_number(op: Division) -> u8
    ensures { result ≡ division_number op }
{
    match op {
        Division::Idiv => 0x6c,
        Division::Irem => 0x70,
        Division::Ldiv => 0x6d,
        Division::Lrem => 0x71,
    }
}

fn one_number(op: OpOne) -> u8
    ensures { result ≡ one_number op }
{
    match op {
        OpOne::Ineg => 0x74,
        OpOne::Lneg => 0x75,
        OpOne::I2l => 0x85,
        OpOne::L2i => 0x88,
        OpOne::I2b => 0x91,
        OpOne::I2c => 0x92,
        OpOne::I2s => 0x93,
    }
}

fn return_number(kind: Returned) -> u8
    ensures { result ≡ return_number kind }
{
    match kind {
        Returned::Int => 0xac,
        Returned::Long => 0xad,
        Returned::Ref => 0xb0,
        Returned::Nothing => 0xb1,
    }
}

fn object_number(op: ObjectOp) -> u8
    ensures { result ≡ object_number op }
{
    match op {
        ObjectOp::ArrayLength => 0xbe,
        ObjectOp::Throw => 0xbf,
    }
}

fn plain_number(head: OneByteOp) -> u8
    ensures { result ≡ head_number (heads.Plain head) }
{
    match head {
        OneByteOp::Nop => 0x00,
        OneByteOp::AconstNull => 0x01,
        OneByteOp::IntConst(n) => 0x02 + int_step(n),
        OneByteOp::LongConst(n) => 0x09 + long_step(n),
        OneByteOp::Local(kind, access, slot) => slot_base(kind, access) + slot_step(slot),
        OneByteOp::ArrayLoad(element) => 0x2e + element_step(element),
        OneByteOp::ArrayStore(element) => 0x4f + element_step(element),
        OneByteOp::Stack(op) => 0x57 + shuffle_step(op),
        OneByteOp::Two(op) => two_number(op),
        OneByteOp::Divide(op) => division_number(op),
        OneByteOp::One(op) => one_number(op),
        OneByteOp::Return(kind) => return_number(kind),
        OneByteOp::Object(op) => object_number(op),
    }
}

fn byte_number(head: ByteHead) -> u8
    ensures { result ≡ head_number (heads.Byte head) }
{
    match head {
        ByteHead::Ldc => 0x12,
        ByteHead::Local(LocalKind::Int, Access::Load) => 0x15,
        ByteHead::Local(LocalKind::Long, Access::Load) => 0x16,
        ByteHead::Local(LocalKind::Ref, Access::Load) => 0x19,
        ByteHead::Local(LocalKind::Int, Access::Store) => 0x36,
        ByteHead::Local(LocalKind::Long, Access::Store) => 0x37,
        ByteHead::Local(LocalKind::Ref, Access::Store) => 0x3a,
    }
}

fn cast_number(op: CastOp) -> u8
    ensures { result ≡ cast_number op }
{
    match op {
        CastOp::CheckCast => 0xc0,
        CastOp::InstanceOf => 0xc1,
    }
}

fn index_number(head: IndexHead) -> u8
    ensures { result ≡ head_number (heads.Index head) }
{
    match head {
        IndexHead::LdcWide => 0x13,
        IndexHead::Ldc2 => 0x14,
        IndexHead::Field(op) => 0xb2 + field_step(op),
        IndexHead::Call(op) => 0xb6 + call_step(op),
        IndexHead::New => 0xbb,
        IndexHead::NewRefArray => 0xbd,
        IndexHead::Cast(op) => cast_number(op),
    }
}

fn ref_test_number(test: RefTest) -> u8
    ensures { result ≡ ref_test_number test }
{
    match test {
        RefTest::Same => 0xa5,
        RefTest::Other => 0xa6,
        RefTest::Null => 0xc6,
        RefTest::NonNull => 0xc7,
    }
}

fn branch_number(head: BranchHead) -> u8
    ensures { result ≡ head_number (heads.Branch head) }
{
    match head {
        BranchHead::If(test) => 0x99 + compare_step(test),
        BranchHead::IfInt(test) => 0x9f + compare_step(test),
        BranchHead::IfRef(test) => ref_test_number(test),
        BranchHead::Goto => 0xa7,
    }
}

fn other_number(head: OtherHead) -> u8
    ensures { result ≡ head_number (heads.Other head) }
{
    match head {
        OtherHead::Bipush => 0x10,
        OtherHead::Sipush => 0x11,
        OtherHead::Iinc => 0x84,
        OtherHead::TableSwitch => 0xaa,
        OtherHead::LookupSwitch => 0xab,
        OtherHead::CallInterface => 0xb9,
        OtherHead::NewArray => 0xbc,
        OtherHead::Wide => 0xc4,
        OtherHead::GotoWide => 0xc8,
    }
}

/// The number of an opcode.
fn head_number(head: Head) -> u8
    ensures { result ≡ head_number head }
{
    match head {
        Head::Plain(head) => plain_number(head),
        Head::Byte(head) => byte_number(head),
        Head::Index(head) => index_number(head),
        Head::Branch(head) => branch_number(head),
        Head::Other(head) => other_number(head),
    }
}

fn local_head(kind: LocalKind, op: LocalOp) -> Head
    ensures { result ≡ (local_parts kind op).0 }
{
    match op {
        LocalOp::At(access, _) => Head::Byte(ByteHead::Local(kind, access)),
        LocalOp::Slot(access, slot) => Head::Plain(OneByteOp::Local(kind, access, slot)),
    }
}

fn switch_head(switch: &Switch) -> Head
    ensures { result ≡ op_head (ops.Switch switch.now) }
{
    match switch {
        Switch::Table(_) => Head::Other(OtherHead::TableSwitch),
        Switch::Lookup(_) => Head::Other(OtherHead::LookupSwitch),
    }
}

/// The opcode of an instruction.
fn op_head(op: &Op) -> Head
    ensures { result ≡ op_head op.now }
{
    match op {
        Op::Nop => Head::Plain(OneByteOp::Nop),
        Op::AconstNull => Head::Plain(OneByteOp::AconstNull),
        Op::IntConst(IntConst::Small(n)) => Head::Plain(OneByteOp::IntConst(*n)),
        Op::IntConst(IntConst::Byte(_)) => Head::Other(OtherHead::Bipush),
        Op::IntConst(IntConst::Short(_)) => Head::Other(OtherHead::Sipush),
        Op::LongConst(n) => Head::Plain(OneByteOp::LongConst(*n)),
        Op::Ldc(Ldc::Narrow(_)) => Head::Byte(ByteHead::Ldc),
        Op::Ldc(Ldc::Wide(_)) => Head::Index(IndexHead::LdcWide),
        Op::Ldc2(_) => Head::Index(IndexHead::Ldc2),
        Op::IntLocal(op) => local_head(LocalKind::Int, *op),
        Op::LongLocal(op) => local_head(LocalKind::Long, *op),
        Op::RefLocal(op) => local_head(LocalKind::Ref, *op),
        Op::ArrayLoad(element) => Head::Plain(OneByteOp::ArrayLoad(*element)),
        Op::ArrayStore(element) => Head::Plain(OneByteOp::ArrayStore(*element)),
        Op::Stack(op) => Head::Plain(OneByteOp::Stack(*op)),
        Op::Two(op) => Head::Plain(OneByteOp::Two(*op)),
        Op::Divide(op) => Head::Plain(OneByteOp::Divide(*op)),
        Op::One(op) => Head::Plain(OneByteOp::One(*op)),
        Op::Iinc(_, _) => Head::Other(OtherHead::Iinc),
        Op::If(test, _) => Head::Branch(BranchHead::If(*test)),
        Op::IfInt(test, _) => Head::Branch(BranchHead::IfInt(*test)),
        Op::IfRef(test, _) => Head::Branch(BranchHead::IfRef(*test)),
        Op::Goto(Goto::Narrow(_)) => Head::Branch(BranchHead::Goto),
        Op::Goto(Goto::Wide(_)) => Head::Other(OtherHead::GotoWide),
        Op::Switch(switch) => switch_head(switch.get()),
        Op::Return(kind) => Head::Plain(OneByteOp::Return(*kind)),
        Op::Field(op, _) => Head::Index(IndexHead::Field(*op)),
        Op::Call(op, _) => Head::Index(IndexHead::Call(*op)),
        Op::CallInterface(_, _) => Head::Other(OtherHead::CallInterface),
        Op::New(NewOp::Object(_)) => Head::Index(IndexHead::New),
        Op::New(NewOp::Array(_)) => Head::Other(OtherHead::NewArray),
        Op::New(NewOp::RefArray(_)) => Head::Index(IndexHead::NewRefArray),
        Op::Object(op) => Head::Plain(OneByteOp::Object(*op)),
        Op::Cast(op, _) => Head::Index(IndexHead::Cast(*op)),
        Op::Wide(_) => Head::Other(OtherHead::Wide),
    }
}

/// The number of an instruction's opcode, which is its first byte (JVMS 6.5).
pub fn opcode_of(op: &Op) -> u8
    ensures { result ≡ head_number (parts op.now).0 }
{
    head_number(op_head(op))
}
