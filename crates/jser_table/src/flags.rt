//! The flags of a class descriptor, by their names in `java.io.ObjectStreamConstants` (Java Object Serialization
//! Specification, section 6.4.2).
ghost use Rattle.std.specs.Prelude.{◌≡◌};
ghost use Rattle.jser_table.specs.Chains.{has_write_method, is_serializable, is_externalizable, has_block_data, is_enum};

/// The class writes by a method of its own: an annotation follows its fields.
pub const SC_WRITE_METHOD: u8 = 0x01;
/// The class is serializable.
pub const SC_SERIALIZABLE: u8 = 0x02;
/// The class is externalizable: it writes its data itself.
pub const SC_EXTERNALIZABLE: u8 = 0x04;
/// An externalizable class writes its data as block data.
pub const SC_BLOCK_DATA: u8 = 0x08;
/// The class is an enum.
pub const SC_ENUM: u8 = 0x10;

/// Whether the flags have `SC_WRITE_METHOD`.
pub(crate) fn has_write_method(flags: u8) -> bool
    ensures { result ≡ has_write_method flags }
{
    flags & SC_WRITE_METHOD != 0
}

/// Whether the flags have `SC_SERIALIZABLE`.
#[tactic(auto, using(crate::proofs::FlagLemmas::serializable_bit))]
pub(crate) fn is_serializable(flags: u8) -> bool
    ensures { result ≡ is_serializable flags }
{
    flags & SC_SERIALIZABLE != 0
}

/// Whether the flags have `SC_EXTERNALIZABLE`.
#[tactic(auto, using(crate::proofs::FlagLemmas::externalizable_bit))]
pub(crate) fn is_externalizable(flags: u8) -> bool
    ensures { result ≡ is_externalizable flags }
{
    flags & SC_EXTERNALIZABLE != 0
}

/// Whether the flags have `SC_BLOCK_DATA`.
#[tactic(auto, using(crate::proofs::FlagLemmas::block_data_bit))]
pub(crate) fn has_block_data(flags: u8) -> bool
    ensures { result ≡ has_block_data flags }
{
    flags & SC_BLOCK_DATA != 0
}

/// Whether the flags have `SC_ENUM`.
#[tactic(auto, using(crate::proofs::FlagLemmas::enum_bit))]
pub(crate) fn is_enum(flags: u8) -> bool
    ensures { result ≡ is_enum flags }
{
    flags & SC_ENUM != 0
}
