use crate::failure::Failure;

const TEXT: &str = "\
prefix: parallel-prefix networks, checked and measured

  prefix sheet [FILE]      answer the calls of a sheet script, one to a line, from FILE or standard input
  prefix measure NETWORK   joins, depth and fan-out of a network
  prefix help              this list

NETWORK is a FAMILY and a WIDTH, or @FILE, a sheet script whose sheet is closed at its end.
FAMILY is sklansky, kogge-stone, brent-kung or han-carlson, or its number 1 to 4. WIDTH is 1 to 64.

The calls of a sheet script; `#` starts a comment:
  open WIDTH            a sheet of that many columns, without joins
  join LOW HIGH         join two nodes; answers the new node's number
  undo                  take the last join back; answers how many remain
  lay FAMILY            all joins of a family, on columns alone; answers how many
  output COLUMN         the lowest node that spells columns 0 to COLUMN, or none
  close                 check that every column has an output
  reopen                end the closed sheet
  measure               joins, depth and fan-out of the closed sheet
  run KIND ELEMENT...   the closed sheet over one element to a column; answers every node's element

KIND is carry (elements 00, 01, 10, 11: generate, propagate), parity (0, 1), verdict (=, <, >) or
map (0 to 255: two bits for each of the states 0 to 3).

Examples:
  prefix measure sklansky 8
  prefix measure @drawing.txt
  printf 'open 2\\njoin 0 1\\nclose\\nmeasure\\n' | prefix sheet
  printf 'open 8\\nlay 1\\nclose\\nrun parity 1 0 1 1 0 0 1 0\\n' | prefix sheet
";

#[inline(never)]
pub fn command(rt: &HostRuntime, rest: &[&str]) -> Result<(), Failure> {
    if !rest.is_empty() {
        return Err(Failure::usage(rt.alloc(), "help takes no word"));
    }
    print!(rt; "{TEXT}")?;
    Ok(())
}
