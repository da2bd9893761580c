// A builder of modules.
ghost use Rattle.std.specs.Prelude.{◌≡◌, ◌≤◌, ◌++◌, [], ◌∷◌, length, IfOk, OnOk, OnErr, None};
ghost use Rattle.spv_words.specs.Words.{words, first_fault, octets_of};
ghost use Rattle.module_gen.specs.Assembly.{module_words, instructions_of};

use crate::encode::{Inst, put_insts, put_words};
use spv_words::Memory;
use std::alloc::Global;
use std::marker::Model;

const MAGIC: u32 = 0x07230203;

/// Builds the bytes of a module (SPIR-V 1.6, section 2.3) from its version and its instructions, one by one. It
/// judges none of them, so it builds broken modules too. Contracts see the version and the instructions put so far.
/// Each call answers `Memory` only for want of memory.
#[derive(Drop)]
pub struct Builder {
    alloc: Global,
    version: u32,
    insts: Vec<Inst>,
}

impl Model for Builder {
    ghost use Rattle.module_gen.specs.Assembly.{Assembly};
    ghost use Rattle.module_gen.specs.Held.{assembly_of, IsHeld};

    ghost Value = { Assembly };

    ghost view = { assembly_of };

    ghost invariant = { IsHeld };
}

impl Builder {
    /// A builder of a module with this version word, which may be any, and no instruction so far.
    pub fn new(alloc: Global, version: u32) -> Result<Builder, Memory>
        ensures { IfOk result (λ b. b ≡ record { version = version; insts = [] }) }
    {
        Ok(Builder {
            alloc,
            version,
            insts: Vec::new(alloc),
        })
    }

    /// Appends the instruction of this opcode with these words behind its first, which holds the opcode and the word
    /// count. At an `Err` the builder is as it was.
    pub fn put(&mut self, opcode: u16, words: &[u32]) -> Result<(), Memory>
        requires { length words.now ≤ 65534 }
        ensures ok { OnOk result (self.new ≡ record self.old {
          insts = self.old.insts ++ record { opcode = opcode; operands = words.now } ∷ [];
        }) }
        ensures err { OnErr result (self.new ≡ self.old) }
    {
        let operands = words.to_vec(self.alloc)?;
        self.insts.push(Inst { opcode, operands })?;
        Ok(())
    }

    /// The bytes of the module, each word's lowest-order octet first: the header with this bound and 0 for generator and
    /// schema, and then the instructions. Read as words they are cut into just the instructions that were put.
    pub fn finish(self, bound: u32) -> Result<Vec<u8>, Memory>
        ensures bytes { IfOk result (λ bytes. bytes.items ≡ octets_of (module_words self bound)) }
        ensures words { IfOk result (λ bytes. words bytes.items ≡ module_words self bound) }
        ensures insts { IfOk result (λ bytes. instructions_of (words bytes.items) ≡ self.insts) }
        ensures whole { IfOk result (λ bytes. first_fault (words bytes.items) ≡ None) }
    {
        let mut bytes = Vec::new(self.alloc);
        put_words(&mut bytes, &[MAGIC, self.version, 0, bound, 0])?;
        put_insts(&mut bytes, &self.insts)?;
        Ok(bytes)
    }
}
