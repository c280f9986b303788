// Old tables and the converter (Ask 6): what it makes of them, its answers in their order, and that a step takes no old table.

// Columns: what it shows, the script, what should come of it.
pub(crate) const OLDS: &str = "\
converted                                 s O500 e100 o i225 #                  nothing sent, A live 500-100-0=400 for 99999 intact, B free, in all 1 live, 400 open
converted, two live                       s O500 B O300 o i225 #                nothing sent, A live 500-0-0=500 for 99999 intact, B live 300-0-0=300 for 99999, in all 2 live, 800 open
converted, one dead, one rejected         s O500 X0 B O0 o i225 #               nothing sent, A dead 0-0-0=0 intact, B rejected, in all 0 live, 0 open
converted, then Replace 500               s O500 e100 o i225 U500 #             Replaced 400, A dead 100-100-0=0, B live 500-100-0=400 for 99999, in all 1 live, 400 open
converted, nothing in it                  o i225 #                              nothing sent, A free, B free, in all 0 live, 0 open
13: a byte short                          s O500 o i224                         answer 13, nothing changed
13: a byte long                           s O500 o i226                         answer 13, nothing changed
10 before 13: not sound, a byte short     o b0 v9 i224                          answer 10, nothing changed
10: not sound                             o b0 v9 i225                          answer 10, nothing changed
10: a table of today                      s O500 i225                           answer 10, nothing changed
10: a sum in it                           s O500 o b62 v1 b63 v244 i225         answer 10, nothing changed
bits are none of its bytes                s O500 o b224 v1 i225 #               nothing sent, A live 500-0-0=500 for 99999 intact, B free, in all 1 live, 500 open
10 from a step: not converted             s O500 o E                            answer 10, nothing changed
10 from a step, then converted            s O500 o E i225 E                     System Event E, A live 500-0-0=500 for 99999 intact, B free
";
