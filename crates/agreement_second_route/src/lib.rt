// The second route of document 01: rewriting, the writer, the reader and plain search, each on exactly
// what the one before it returned or left in the part it filled. (The first route is one call,
// search_wish::search.)
#![tactic(auto)]

ghost use Rattle.std.specs.Prelude.{◌≡◌};
ghost use Rattle.rule_file_reader.specs.Read.{read_output};
ghost use Rattle.rule_file_writer.specs.Write.{write_output};
ghost use Rattle.search_meaning.specs.Answers.{reply_of};
ghost use Rattle.agreement_second_route.specs.Routes.{in_buffers, from_reader, from_writer, second_route};
ghost use Rattle.agreement_second_route.specs.Left.{choice_from_reader, list_from_writer, choice_from_writer, second_leaves};

use refusal::Refusal;

// The whole route, with a buffer lent for what each call writes.
pub fn second_route(
    n: usize,
    rules: &[i32],
    row: &[u8],
    d: usize,
    rewritten: &mut [i32],
    file: &mut [u8],
    list: &mut [i32],
    choice: &mut [u8],
) -> Result<Option<usize>, Refusal>
    ensures reply { reply_of result ≡ second_route n rules.now row.now d (in_buffers rewritten.old file.old list.old choice.old) }
    ensures buffers { in_buffers rewritten.new file.new list.new choice.new ≡ second_leaves n rules.now row.now d (in_buffers rewritten.old file.old list.old choice.old) }
{
    let sizes = totalizer_encoding::rewrite(n, rules, row, d, rewritten)?;
    let k = sizes.length;
    from_writer(sizes.variables, &rewritten[..k], file, list, choice)
}

// The route from the writer on.
fn from_writer(
    n: usize,
    rules: &[i32],
    file: &mut [u8],
    list: &mut [i32],
    choice: &mut [u8],
) -> Result<Option<usize>, Refusal>
    ensures reply { reply_of result ≡ from_writer (in_buffers rules.now file.old list.old choice.old) n rules.now }
    ensures file { file.new ≡ write_output n rules.now file.old }
    ensures list { list.new ≡ list_from_writer (in_buffers rules.now file.old list.old choice.old) n rules.now }
    ensures choice { choice.new ≡ choice_from_writer (in_buffers rules.now file.old list.old choice.old) n rules.now }
{
    let k = rule_file_writer::write_rules(n, rules, file)?;
    from_reader(&file[..k], list, choice)
}

// The route from the reader on.
fn from_reader(file: &[u8], list: &mut [i32], choice: &mut [u8]) -> Result<Option<usize>, Refusal>
    ensures reply { reply_of result ≡ from_reader (in_buffers list.old file.now list.old choice.old) file.now }
    ensures list { list.new ≡ read_output file.now list.old }
    ensures choice { choice.new ≡ choice_from_reader (in_buffers list.old file.now list.old choice.old) file.now }
{
    let counts = rule_file_reader::read_rules(file, list)?;
    let k = counts.length;
    search_plain::search(counts.variables, &list[..k], choice)
}
