//! Writes one command, in as few bytes as spell it.
ghost use Rattle.std.specs.Prelude.{◌≡◌, ◌≤◌, ◌<◌, ◌+◌, ◌*◌, ◌++◌, ◌^◌, [], ◌∷◌, length};
ghost use Rattle.std.specs.List.{All};
ghost use Rattle.std.specs.Int.{cast_unsigned, w32};
ghost use Rattle.byteorder.specs.Endian.{big_bytes};
ghost use Rattle.arrayvec.specs.ArrayVec.{array_vec_len};
ghost use Rattle.dvi_ops.specs.View.{view, def_view, head_view, tail_view};
ghost use Rattle.dvi_ops.specs.Shortest.{words_of, code_width, move_width, length_width, with_code, with_move, set_bytes, font_bytes, definition_bytes, preamble_bytes, postamble_bytes, shortest, shortest_whole, end_text, IsShortest, IsWord, DefinitionHasRoom, PreambleHasRoom, PostambleHasRoom, HasRoom, CanBePut};

use crate::cmd::{Cmd, Def, Head, Tail};
use arrayvec::ArrayVec;

/// Room for the longest command without a special's or a comment's text: a font definition with its name.
pub type CmdBytes = ArrayVec<u8, 540>;

/// Replaces the contents of `out` by the shortest spelling of a command (DVI format, the table of commands), without the text at the
/// end of a special or of `pre`, and answers the length of the whole spelling in bytes.
///
/// Each number stands in as few bytes as hold it, and a small code or font number in the operation byte. Who writes the spelling
/// writes the text behind it.
pub fn put_cmd(cmd: &Cmd<'_>, out: &mut CmdBytes) -> usize
    requires { CanBePut (view cmd.now) }
    ensures value { out.new.items ≡ shortest (view cmd.now) }
    ensures len { result ≡ length (shortest_whole (view cmd.now)) }
    ensures least { IsShortest (view cmd.now) (out.new.items ++ end_text (view cmd.now)) }
{
    put_front(cmd, out);
    out.len() + end_len(cmd)
}

/// How many bytes of text stand at the end of the command.
fn end_len(cmd: &Cmd<'_>) -> usize
    requires { CanBePut (view cmd.now) }
    ensures value { result ≡ length (end_text (view cmd.now)) }
    ensures small { result < 2 ^ 32 }
{
    match cmd {
        Cmd::Xxx(text) => text.len(),
        Cmd::Pre(head) => head.comment.len(),
        _ => 0,
    }
}

/// The spelling without that text.
#[tactic(auto, unfolding(crate::specs::Shortest::shortest))]
fn put_front(cmd: &Cmd<'_>, out: &mut CmdBytes)
    requires { CanBePut (view cmd.now) }
    ensures value { out.new.items ≡ shortest (view cmd.now) }
    ensures room { HasRoom (view cmd.now) }
{
    match *cmd {
        Cmd::Set(c) => put_set(c, out),
        Cmd::SetRule { a, b } => put_words(132, &[a, b], out),
        Cmd::Put(c) => put_code(132, c, out),
        Cmd::PutRule { a, b } => put_words(137, &[a, b], out),
        Cmd::Nop => start(138, out),
        Cmd::Bop { counts, back } => put_bop(&counts, back, out),
        Cmd::Eop => start(140, out),
        Cmd::Push => start(141, out),
        Cmd::Pop => start(142, out),
        Cmd::Right(q) => put_move(142, q, out),
        Cmd::W0 => start(147, out),
        Cmd::W(q) => put_move(147, q, out),
        Cmd::X0 => start(152, out),
        Cmd::X(q) => put_move(152, q, out),
        Cmd::Down(q) => put_move(156, q, out),
        Cmd::Y0 => start(161, out),
        Cmd::Y(q) => put_move(161, q, out),
        Cmd::Z0 => start(166, out),
        Cmd::Z(q) => put_move(166, q, out),
        Cmd::Fnt(k) => put_font(k, out),
        Cmd::Xxx(text) => put_length(text.len() as u32, out),
        Cmd::FntDef(def) => put_def(&def, out),
        Cmd::Pre(head) => put_pre(&head, out),
        Cmd::Post(tail) => put_post(&tail, out),
        Cmd::PostPost { back, id } => put_post_post(back, id, out),
    }
}

// ---- numbers

/// Begins anew with an operation byte.
fn start(op: u8, out: &mut CmdBytes)
    ensures { out.new.items ≡ op ∷ [] }
{
    out.clear();
    out.push(op);
}

/// Appends the lowest `n` bytes of a number, the highest of them first.
fn put_number(number: u32, n: usize, out: &mut CmdBytes)
    requires low { 1 ≤ n }
    requires high { n ≤ 4 }
    requires room { array_vec_len out.old + n ≤ 540 }
    ensures value { out.new.items ≡ out.old.items ++ big_bytes n number }
    ensures len { array_vec_len out.new ≡ array_vec_len out.old + n }
{
    put_bytes(&number.to_be_bytes()[4 - n..], out);
}

/// Appends bytes for which there is room.
fn put_bytes(bytes: &[u8], out: &mut CmdBytes)
    requires { array_vec_len out.old + length bytes.now ≤ 540 }
    ensures value { out.new.items ≡ out.old.items ++ bytes.now }
    ensures len { array_vec_len out.new ≡ array_vec_len out.old + length bytes.now }
{
    match out.try_extend_from_slice(bytes) {
        Ok(()) => {}
        Err(_) => unreachable!(),
    }
}

/// Appends a signed number of four bytes.
fn put_word(number: i32, out: &mut CmdBytes)
    requires { array_vec_len out.old + 4 ≤ 540 }
    ensures value { out.new.items ≡ out.old.items ++ big_bytes 4 (cast_unsigned w32 number) }
    ensures len { array_vec_len out.new ≡ array_vec_len out.old + 4 }
    ensures word { IsWord number }
{
    put_number(number.cast_unsigned(), 4, out);
}

/// In how many bytes a length stands.
fn length_width(number: u32) -> usize
    ensures value { result ≡ length_width number }
    ensures low { 1 ≤ result }
    ensures high { result ≤ 4 }
{
    match number {
        0..=0xFF => 1,
        0x100..=0xFFFF => 2,
        0x1_0000..=0xFF_FFFF => 3,
        _ => 4,
    }
}

/// In how many bytes a code or a font number stands.
fn code_width(code: i32) -> usize
    ensures value { result ≡ code_width code }
    ensures low { 1 ≤ result }
    ensures high { result ≤ 4 }
{
    match code {
        0..=0xFF => 1,
        0x100..=0xFFFF => 2,
        0x1_0000..=0xFF_FFFF => 3,
        _ => 4,
    }
}

/// In how many bytes a distance stands.
fn move_width(q: i32) -> usize
    ensures value { result ≡ move_width q }
    ensures low { 1 ≤ result }
    ensures high { result ≤ 4 }
{
    match q {
        -0x80..=0x7F => 1,
        -0x8000..=0x7FFF => 2,
        -0x80_0000..=0x7F_FFFF => 3,
        _ => 4,
    }
}

// ---- commands

/// A code or a font number; `op + 1` is the operation byte of the one in one byte.
fn put_code(op: u8, code: i64, out: &mut CmdBytes)
    requires few { op < 250 }
    requires word { IsWord code }
    ensures { out.new.items ≡ with_code op code }
{
    let code = code as i32;
    let n = code_width(code);
    start(op + n as u8, out);
    put_number(code.cast_unsigned(), n, out);
}

/// A distance, likewise.
fn put_move(op: u8, q: i32, out: &mut CmdBytes)
    requires { op < 250 }
    ensures value { out.new.items ≡ with_move op q }
    ensures word { IsWord q }
{
    let n = move_width(q);
    start(op + n as u8, out);
    put_number(q.cast_unsigned(), n, out);
}

/// A character that is set.
fn put_set(code: i64, out: &mut CmdBytes)
    requires { IsWord code }
    ensures { out.new.items ≡ set_bytes code }
{
    match code {
        0..=127 => start(code as u8, out),
        _ => put_code(127, code, out),
    }
}

/// A font that is selected.
fn put_font(k: i64, out: &mut CmdBytes)
    requires { IsWord k }
    ensures { out.new.items ≡ font_bytes k }
{
    match k {
        0..=63 => start(171 + k as u8, out),
        _ => put_code(234, k, out),
    }
}

/// An operation byte and signed numbers of four bytes.
fn put_words(op: u8, words: &[i32], out: &mut CmdBytes)
    requires { length words.now ≤ 10 }
    ensures value { out.new.items ≡ op ∷ words_of words.now }
    ensures len { array_vec_len out.new ≡ 1 + 4 * length words.now }
    ensures words { All IsWord words.now }
{
    start(op, out);
    for word in words {
        put_word(*word, out);
    }
}

/// A page's beginning.
fn put_bop(counts: &[i32; 10], back: i32, out: &mut CmdBytes)
    ensures value { out.new.items ≡ 139 ∷ words_of counts.now ++ big_bytes 4 (cast_unsigned w32 back) }
    ensures long { length counts.now ≡ 10 }
    ensures words { All IsWord counts.now }
    ensures word { IsWord back }
{
    put_words(139, counts, out);
    put_word(back, out);
}

/// A special's length.
fn put_length(len: u32, out: &mut CmdBytes)
    ensures { out.new.items ≡ (238 + length_width len) ∷ big_bytes (length_width len) len }
{
    let n = length_width(len);
    start(238 + n as u8, out);
    put_number(len, n, out);
}

/// A font definition with its name.
fn put_def(def: &Def<'_>, out: &mut CmdBytes)
    requires word { IsWord def.now.k }
    requires area { def.now.area ≤ length def.now.name.now }
    requires name { length def.now.name.now < def.now.area + 256 }
    ensures value { out.new.items ≡ definition_bytes (def_view def.now) }
    ensures room { DefinitionHasRoom (def_view def.now) }
{
    put_code(242, i64::from(def.k), out);
    put_number(def.checksum, 4, out);
    put_word(def.size, out);
    put_word(def.design, out);
    let rest = def.name.len() - def.area as usize;
    put_bytes(&[def.area, rest as u8], out);
    put_bytes(def.name, out);
}

/// What stands before all pages, without the comment.
fn put_pre(head: &Head<'_>, out: &mut CmdBytes)
    requires { length head.now.comment.now < 256 }
    ensures value { out.new.items ≡ preamble_bytes (head_view head.now) }
    ensures room { PreambleHasRoom (head_view head.now) }
{
    start(247, out);
    put_bytes(&[head.id], out);
    put_word(head.num, out);
    put_word(head.den, out);
    put_word(head.mag, out);
    put_bytes(&[head.comment.len() as u8], out);
}

/// What stands behind all pages.
fn put_post(tail: &Tail, out: &mut CmdBytes)
    ensures value { out.new.items ≡ postamble_bytes (tail_view tail.now) }
    ensures room { PostambleHasRoom (tail_view tail.now) }
{
    start(248, out);
    put_word(tail.back, out);
    put_word(tail.num, out);
    put_word(tail.den, out);
    put_word(tail.mag, out);
    put_word(tail.tall, out);
    put_word(tail.wide, out);
    put_number(u32::from(tail.depth), 2, out);
    put_number(u32::from(tail.pages), 2, out);
}

/// The end of the file.
fn put_post_post(back: u32, id: u8, out: &mut CmdBytes)
    ensures value { out.new.items ≡ 249 ∷ big_bytes 4 back ++ (id ∷ []) }
    ensures back { back < 2 ^ 32 }
    ensures id { id < 256 }
{
    start(249, out);
    put_number(back, 4, out);
    put_bytes(&[id], out);
}
