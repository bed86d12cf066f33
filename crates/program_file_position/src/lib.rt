// Where a place of a file stands, as people name it: by its line and its column.
#![tactic(auto)]

ghost use Rattle.std.specs.Prelude.{◌≡◌};
ghost use Rattle.program_file_position.specs.Position.{position_at};

// A line and a column, both counted from 1.
#[derive(Clone, Copy)]
pub struct Position {
    pub line: usize,
    pub column: usize,
}

// The line and the column of a place. A place past the file's end has those of the end.
pub fn position_of(file: &[u8], place: usize) -> Position
    ensures { result ≡ position_at file.now place }
{
    let mut line = 1;
    let mut column = 1;
    for b in file.iter().take(place) {
        if *b == b'\n' {
            line += 1;
            column = 1;
        } else {
            column += 1;
        }
    }
    Position { line, column }
}
