// What `rosuklam --help` prints.
pub const HELP: &str = "\
rosuklam reads TCG platform certificates and answers which parts are in a machine.

Usage: rosuklam COMMAND ...

  elements FILE         Prints the tree of the file's elements: for each its offset,
                        tag and content length, indented under the one that holds it.
                        Stops at the first element that is refused.
                          rosuklam elements issuer.der

  element FILE PLACE    Reads the one element at an offset of the file.
                          rosuklam element issuer.der 4
                          tag 30, content 8 to 416

  report FILE           Prints the parts of a probe report in rising order, then 'end'.
                          rosuklam report cabinet.report
                          tcg:00030003:Acme:Reader-7:SN%2F1 revision=B2 replaceable=yes
                          end

  audit FILE FILE       Prints each key of which two probe reports say different things,
                        with both answers, then 'end'.
                          rosuklam audit cabinet.report opened.report
                          tcg:00030003:Acme:Reader-7:SN%2F1 | revision=B2 replaceable=yes | none
                          end

  batch FILE            Runs the commands in the file, one to a line with single spaces
                        between words. Prints each behind '> ', then what it prints,
                        then 'status 1' where it ends so. Its own status is then 0.
                          rosuklam batch commands

  --help                Prints this text.

Offsets and lengths are decimal, tags hexadecimal. 'content A to B' says that the
content begins at A and that B is the offset behind it. A key prints as
REGISTRY:CLASS:MAKER:MODEL:SERIAL, registry tcg, dmtf, pcie or storage, class in
hexadecimal, and in texts %XX for a byte that is no letter, digit, '.', '_' or '-';
'revision=' is empty where it is missing. A refusal prints as
'refused NUMBER at PLACE: words'; docs/REFUSALS.md explains each number.

Status: 0 where everything asked for was answered; 1 where a file was refused, could
not be read, or the command line was not understood.
";
