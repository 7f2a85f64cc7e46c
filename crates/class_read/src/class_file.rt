//! The class file (JVMS 4.1).

ghost use Rattle.std.specs.Prelude.{ℕ, List, ◌≡◌, ◌&&◌, ◌<◌, ◌≤◌, ◌^◌, length, drop, nat_le, Ok, Err, IfOk, IfErr};
ghost use Rattle.class_model.specs.declared.class_file.Class.{Class};
ghost use Rattle.class_model.specs.Shape.{Shaped};
ghost use Rattle.class_model.specs.Spelling as spelling;
ghost use Rattle.class_text.specs.Pool.{pool_at};
ghost use Rattle.class_text.specs.Classes.{minor_at, major_at, behind_pool_at, class_at_front, class_of};
ghost use Rattle.class_text.specs.Meanings.{IsMeant};
ghost use Rattle.const_pool.specs.Faults.{Gives, GivesFront, IsOf, Fails, IsOkUnlessMemory};

use crate::attributes::attributes_in;
use crate::item_lists::counted_in;
use crate::members::{fields_in, methods_in};
use crate::numbers::{u2_in, u4_in};
use crate::stands::Stand;
use crate::targets::{IndexReader, Target, index_in};
use class_model::{Class, MAGIC};
use class_text::{NEWEST_MAJOR, OLDEST_MAJOR};
use const_pool::{ClassFault, JudgedPool, offset_of, read_pool};
use std::alloc::Global;

/// The magic and the minor version.
#[tactic(auto, unfolding(class_text::specs::Classes::minor_at))]
fn minor_in(end: u32, bytes: &[u8]) -> Result<(u16, &[u8]), ClassFault>
    ensures { GivesFront result (minor_at end bytes.now) }
{
    let (magic, rest) = u4_in(end, bytes)?;
    if magic != MAGIC {
        return Err(ClassFault::BadMagic);
    }
    u2_in(end, rest)
}

/// The major version.
#[tactic(auto, unfolding(class_text::specs::Classes::major_at))]
fn major_in(end: u32, bytes: &[u8]) -> Result<(u16, &[u8]), ClassFault>
    ensures { GivesFront result (major_at end bytes.now) }
{
    let (major, rest) = u2_in(end, bytes)?;
    if major < OLDEST_MAJOR {
        return Err(ClassFault::BadMajor(major));
    }
    if major > NEWEST_MAJOR {
        return Err(ClassFault::BadMajor(major));
    }
    Ok((major, rest))
}

/// The pool that begins at an offset of the file.
fn pool_in(alloc: Global, file: &[u8], at: u32) -> Result<(JudgedPool, &[u8]), ClassFault>
    requires small { length file.now < 2 ^ 32 }
    requires within { at ≤ length file.now }
    ensures { GivesFront result (pool_at (length file.now) (drop at file.now)) }
{
    let (pool, next) = read_pool(alloc, file, at)?;
    let (_, rest) = file.split_at(next as usize);
    Ok((pool, rest))
}

/// What stands behind the pool.
#[tactic(auto, unfolding(class_text::specs::Classes::behind_pool_at))]
fn behind_pool_in(
    alloc: Global,
    minor: u16,
    major: u16,
    pool: JudgedPool,
    end: u32,
    bytes: &[u8],
) -> Result<(Class, &[u8]), ClassFault>
    ensures { GivesFront result (behind_pool_at minor major pool end bytes.now) }
{
    let (flags, rest) = u2_in(end, bytes)?;
    let (this_class, rest) = index_in(&pool, Target::PlainClass, end, rest)?;
    let (super_class, rest) = index_in(&pool, Target::SuperOf(this_class), end, rest)?;
    let classes = IndexReader {
        pool: &pool,
        target: Target::PlainClass,
    };
    let (interfaces, rest) = counted_in(alloc, &classes, end, rest)?;
    let (fields, rest) = fields_in(alloc, &pool, end, rest)?;
    let (methods, rest) = methods_in(alloc, &pool, end, rest)?;
    let (attributes, rest) = attributes_in(alloc, &pool, Stand::Class, false, end, rest)?;
    let class = Class {
        minor,
        major,
        pool: pool.into_pool(),
        flags,
        this_class,
        super_class,
        interfaces,
        fields,
        methods,
        attributes,
    };
    Ok((class, rest))
}

/// The class at the front of a file.
#[tactic(auto, unfolding(class_text::specs::Classes::class_at_front))]
fn class_in(alloc: Global, file: &[u8]) -> Result<(Class, &[u8]), ClassFault>
    requires { length file.now < 2 ^ 32 }
    ensures { GivesFront result (class_at_front (length file.now) file.now) }
{
    let end = file.len() as u32;
    let (minor, rest) = minor_in(end, file)?;
    let (major, rest) = major_in(end, rest)?;
    match pool_in(alloc, file, offset_of(end, rest)) {
        Ok((pool, behind)) => behind_pool_in(alloc, minor, major, pool, end, behind),
        Err(fault) => Err(fault),
    }
}

/// The class, where it is all of the file.
#[tactic(auto, unfolding(class_text::specs::Classes::class_of))]
fn whole_class_in(alloc: Global, file: &[u8]) -> Result<Class, ClassFault>
    requires { length file.now < 2 ^ 32 }
    ensures { Gives (λ c. c) result (class_of file.now) }
{
    let (class, rest) = class_in(alloc, file)?;
    if !rest.is_empty() {
        return Err(ClassFault::BytesLeft(offset_of(file.len() as u32, rest)));
    }
    Ok(class)
}

/// Reads a class file (JVMS 4). The refusal is the first bad place, an offset in the file: the first item in file order
/// that the grammar doesn't allow after what stands before it. In the pool a constant is named by its tag, and wrong
/// targets come after all other causes; elsewhere a cut and an index are named by their own place, an attribute by that
/// of its name, and a method without its code by its flags.
pub fn read_class(alloc: Global, bytes: &[u8]) -> Result<Class, ClassFault>
    requires { length bytes.now < 2 ^ 32 }
    // What is read is shaped, and the bytes are its text.
    ensures found { IfOk result (λ c. Shaped c × (bytes.now ≡ spelling.class c)) }
    // The text of a shaped class is read as this class.
    ensures only { (c : Class) → Shaped c → bytes.now ≡ spelling.class c
        → IsOkUnlessMemory (λ x. x ≡ c) result }
    // A refusal is the first bad place.
    ensures fault { IfErr result (λ e. Fails e (class_of bytes.now)) }
    // It says what stands there.
    ensures says { IfErr result (λ e. IsOf (IsMeant bytes.now) e) }
    // A text has at most one class.
    ensures one { (c d : Class) → Shaped c → Shaped d → bytes.now ≡ spelling.class c
        → bytes.now ≡ spelling.class d → c ≡ d }
{
    whole_class_in(alloc, bytes)
}
