// The bytes of words, the lowest-order octet first, and the words of instructions.
ghost use Rattle.std.specs.Prelude.{◌≡◌, ◌≤◌, ◌++◌, [], ◌∷◌, length, OnOk, All, map};
ghost use Rattle.spv_words.specs.Words.{octets_of};
ghost use Rattle.module_gen.specs.Assembly.{words_of, stream, instruction};

use byteorder::{ByteOrder, LittleEndian};
use std::alloc::AllocError;

/// An instruction: its opcode and the words after its first.
#[derive(Drop)]
pub struct Inst {
    pub opcode: u16,
    pub operands: Vec<u32>,
}

fn put_word(bytes: &mut Vec<u8>, word: u32) -> Result<(), AllocError>
    ensures { OnOk result (bytes.new.items ≡ bytes.old.items ++ octets_of (word ∷ [])) }
{
    let mut octets = [0u8; 4];
    LittleEndian::write_u32(&mut octets, word);
    bytes.extend_from_slice(&octets)
}

/// Appends these words.
pub fn put_words(bytes: &mut Vec<u8>, words: &[u32]) -> Result<(), AllocError>
    ensures { OnOk result (bytes.new.items ≡ bytes.old.items ++ octets_of words.now) }
{
    for word in words {
        put_word(bytes, *word)?;
    }
    Ok(())
}

/// Appends the words of an instruction: its word count and opcode, then the operands.
fn put_inst(bytes: &mut Vec<u8>, inst: &Inst) -> Result<(), AllocError>
    requires { length inst.now.operands.items ≤ 65534 }
    ensures { OnOk result (bytes.new.items ≡ bytes.old.items ++ octets_of (words_of (instruction inst.now))) }
{
    let opcode = inst.opcode;
    let word_count = inst.operands.len() as u32 + 1;
    put_word(bytes, word_count * 0x10000 + u32::from(opcode))?;
    put_words(bytes, &inst.operands)
}

/// Appends the words of these instructions.
pub fn put_insts(bytes: &mut Vec<u8>, insts: &[Inst]) -> Result<(), AllocError>
    requires { All (λ i. length i.operands.items ≤ 65534) insts.now }
    ensures { OnOk result (bytes.new.items ≡ bytes.old.items ++ octets_of (stream (map instruction insts.now))) }
{
    for inst in insts {
        put_inst(bytes, inst)?;
    }
    Ok(())
}
