// The calls that read and write the two files.
ghost use Rattle.std.specs.Prelude.{◌≡◌, length};
ghost use Rattle.rule_file_reader.specs.Read as rules_read;
ghost use Rattle.rule_file_writer.specs.Write as rules_written;
ghost use Rattle.wish_file_reader.specs.Read as wishes_read;
ghost use Rattle.wish_file_writer.specs.Write as wishes_written;
ghost use Rattle.c_answers.specs.Answers.{answer_of};

use c_answers::Answer;

// The values are the variables, the rules and the length of the list.
#[unsafe(no_mangle)]
pub extern "C" fn powhanire_read_rules(file: &[u8], rules: &mut [i32]) -> Answer
    ensures answer { result ≡ answer_of (rules_read.read_reply file.now (length rules.old)) }
    ensures output { rules.new ≡ rules_read.read_output file.now rules.old }
{
    c_answers::answer_of(rule_file_reader::read_rules(file, rules))
}

// The value is the length of the file.
#[unsafe(no_mangle)]
pub extern "C" fn powhanire_write_rules(n: usize, rules: &[i32], file: &mut [u8]) -> Answer
    ensures answer { result ≡ answer_of (rules_written.write_reply n rules.now (length file.old)) }
    ensures output { file.new ≡ rules_written.write_output n rules.now file.old }
{
    c_answers::answer_of(rule_file_writer::write_rules(n, rules, file))
}

// The values are n, the number of wishes and the limit.
#[unsafe(no_mangle)]
pub extern "C" fn powhanire_read_wishes(file: &[u8], row: &mut [u8]) -> Answer
    ensures answer { result ≡ answer_of (wishes_read.read_reply file.now (length row.old)) }
    ensures output { row.new ≡ wishes_read.read_output file.now row.old }
{
    c_answers::answer_of(wish_file_reader::read_wishes(file, row))
}

// The value is the length of the file.
#[unsafe(no_mangle)]
pub extern "C" fn powhanire_write_wishes(n: usize, row: &[u8], d: usize, file: &mut [u8]) -> Answer
    ensures answer { result ≡ answer_of (wishes_written.write_reply n row.now d (length file.old)) }
    ensures output { file.new ≡ wishes_written.write_output n row.now d file.old }
{
    c_answers::answer_of(wish_file_writer::write_wishes(n, row, d, file))
}
