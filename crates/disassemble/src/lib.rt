// The text of an instruction word, for a debugger (specs/Disassembly.antt).
#![tactic(auto)]

ghost use Rattle.std.specs.Prelude.{◌≡◌, ◌++◌, ◌+◌, ◌-◌, ◌≤◌, ◌<◌, ◌^◌, length, replicate};
ghost use Rattle.word.specs.Word.{signed};
ghost use Rattle.text.specs.Text.{Put};
ghost use Rattle.forms.specs.inner.Forms.{letters, as_list};
ghost use Rattle.disassemble.specs.Disassembly.{register_text, integer_text, field_of, shown_as, operand_text, operands_text, disassemble_on, disassembled_number};
ghost use Rattle.disassemble.specs.inner.Texts.{form_text};

use decode::fields;
use forms::{Form, Operand, OperandList};
use refusals::Refusal;
use text::Text;

// Puts the bytes before the first zero at the front of a lent buffer, and answers the place after them.
fn put_mnemonic(text: &mut [u8], mnemonic: &[u8]) -> usize
    requires { length (letters mnemonic.now) ≤ length text.old }
    ensures { Put text.old 0 (letters mnemonic.now) result text.new }
{
    for (n, letter) in mnemonic.iter().enumerate() {
        if *letter == 0 {
            return n;
        }
        text[n] = *letter;
    }
    mnemonic.len()
}

// A register's number after an r.
fn put_register<const N: usize>(text: &mut Text<N>, n: u32)
    requires room { length text.old + length (register_text n) ≤ N }
    ensures { text.new ≡ text.old ++ register_text n }
{
    text.put_byte(b'r');
    text.put_decimal(n as u64);
}

// A word of 16 bits as an integer in two's complement.
fn put_signed<const N: usize>(text: &mut Text<N>, x: u32)
    requires half { x < 2 ^ 16 }
    requires room { length text.old + length (integer_text (signed 16 x)) ≤ N }
    ensures { text.new ≡ text.old ++ integer_text (signed 16 x) }
{
    if x < 0x8000 {
        text.put_decimal(x as u64);
        return;
    }
    text.put_byte(b'-');
    text.put_decimal((0x1_0000 - x) as u64);
}

// What an operand shows of a word.
fn put_shown<const N: usize>(text: &mut Text<N>, o: Operand, w: u32)
    requires room { length text.old + length (shown_as o (field_of o w)) ≤ N }
    ensures { text.new ≡ text.old ++ shown_as o (field_of o w) }
{
    match o {
        Operand::Rs => put_register(text, fields::rs(w)),
        Operand::Rt => put_register(text, fields::rt(w)),
        Operand::Rd => put_register(text, fields::rd(w)),
        Operand::Sa => text.put_decimal(fields::sa(w) as u64),
        Operand::Imm => put_signed(text, fields::imm(w)),
        Operand::Uimm => text.put_decimal(fields::imm(w) as u64),
        Operand::Iindex => text.put_decimal(fields::iindex(w) as u64),
    }
}

// An operand after its blank.
fn put_operand<const N: usize>(text: &mut Text<N>, o: Operand, w: u32)
    requires room { length text.old + length (operand_text o w) ≤ N }
    ensures { text.new ≡ text.old ++ operand_text o w }
{
    text.put_byte(b' ');
    put_shown(text, o, w);
}

fn put_operands<const N: usize>(text: &mut Text<N>, l: OperandList, w: u32)
    requires room { length text.old + length (operands_text (as_list l) w) ≤ N }
    ensures { text.new ≡ text.old ++ operands_text (as_list l) w }
{
    match l {
        OperandList::None => {}
        OperandList::One(a) => put_operand(text, a, w),
        OperandList::Two(a, b) => {
            put_operand(text, a, w);
            put_operand(text, b, w);
        }
        OperandList::Three(a, b, c) => {
            put_operand(text, a, w);
            put_operand(text, b, w);
            put_operand(text, c, w);
        }
    }
}

// Puts the text of a word at the front of a lent buffer, zeros behind it, and answers the place after the text. Where
// there are operands, they come from a text of their own with the zeros behind it.
fn put_form(text: &mut [u8], l: Form, w: u32) -> usize
    requires room { length text.old ≡ 32 }
    requires short { length (form_text l w) ≤ 32 }
    ensures bytes { text.new ≡ form_text l w ++ replicate (32 - length (form_text l w)) 0 }
    ensures place { result ≡ length (form_text l w) }
{
    let Form(mnemonic, operands) = l;
    let n = put_mnemonic(text, &mnemonic);
    match operands {
        OperandList::None => {
            text[n..].fill(0);
            n
        }
        _ => {
            let mut shown: Text<32> = Text::new();
            put_operands(&mut shown, operands, w);
            text[n..].copy_from_slice(&shown.as_padded()[..32 - n]);
            n + shown.as_bytes().len()
        }
    }
}

// Puts the text of a word into 32 bytes, zero beyond it, and answers its length. Refused if the bytes lent are not 32.
pub fn disassemble(w: u32, text: &mut [u8]) -> Result<u32, Refusal>
    ensures value { result ≡ (disassemble_on w text.old).answer }
    ensures text_after { text.new ≡ (disassemble_on w text.old).bytes }
    ensures result_value { disassembled_number result ≡ disassembled_number (disassemble_on w text.old).answer }
{
    if text.len() != 32 {
        return Err(Refusal::TextLength);
    }
    let n = put_form(text, forms::form_of(w), w);
    Ok(n as u32)
}
