// The length of a rule file, before it is written.
ghost use Rattle.std.specs.Prelude.{◌≡◌, ◌+◌, ◌≤◌, length};
ghost use Rattle.rule_file.specs.Written.{body, header_text};
ghost use Rattle.rule_file_writer.specs.Write.{element_text};

// How many bytes an element of the list takes, with the space or line feed after it.
pub fn element_length(x: i32) -> usize
    ensures { (result ≡ length (element_text x)) × (result ≤ 12) }
{
    text::signed_length(x) + 1
}

// How many bytes the lines of a list take.
pub fn body_length(rules: &[i32]) -> usize
    requires { length rules.now ≤ 40000 }
    ensures { (result ≡ length (body rules.now)) × (result ≤ 480000) }
{
    let mut total = 0;
    for x in rules {
        total += element_length(*x);
    }
    total
}

// How many bytes the header for n variables and some clauses takes.
pub fn header_length(n: usize, clauses: usize) -> usize
    ensures { (result ≡ length (header_text n clauses)) × (result ≤ 48) }
{
    text::number_length(n) + text::number_length(clauses) + 8
}
