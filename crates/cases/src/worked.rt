// The paper's worked numbers (Worked numbers), by its own numbers, and a Replace's minimum on both sides of the new open. Numbers 1 to 8 come after
// 500 entered, 100 executed.

// Columns: what it shows, the script, what should come of it.
pub(crate) const WORKED: &str = "\
1 Replace 500                             s O500 e100 U500                      Replaced 400, A dead 100-100-0=0, B live 500-100-0=400 for 99999
2 Replace 600                             s O500 e100 U600                      Replaced 500, A dead 100-100-0=0, B live 600-100-0=500 for 99999
3 Replace 100: Canceled, token free       s O500 e100 U100                      Canceled 400, A dead 100-100-0=0, B free
3 Replace 101                             s O500 e100 U101                      Replaced 1, A dead 100-100-0=0, B live 101-100-0=1 for 99999
4 Cancel 300                              s O500 e100 X300                      Canceled 200, A live 300-100-0=200 for 99999, B free
5 Cancel 50: dead                         s O500 e100 X50                       Canceled 400, A dead 100-100-0=0, B free
5 Cancel 500: ignored                     s O500 e100 X500                      answer 1, nothing changed
6 self match 50, Replace 500              s O500 e100 q50 U500                  Replaced 350, A dead 150-100-50=0, B live 500-100-50=350 for 99999
7 self match 50, Cancel 300 (Ask 4)       s O500 e100 q50 X300                  Canceled 150, A live 350-100-50=200 for 99999, B free
8 Modify 300                              s O500 e100 M300                      Modified 200, A live 300-100-0=200 for 99999, B free
8 Modify 501: ignored                     s O500 e100 M501                      answer 1, nothing changed
9 Replace 1,000,000 while late            s C O500 e100 l U1000000              Rejected R, A live 500-100-0=400 for 99999 intact, B rejected
10 time in force 100,000                  s t100000 O500                        Accepted 500 at 10000 for 99999 by ABCD, A live 500-0-0=500 for 99999, B free
11 price 1,999,999,900                    s $1999999900 O500                    Accepted 500 at 1999999900 for 99999 by ABCD, A live 500-0-0=500 for 99999, B free
11 price 1,999,999,901: X                 s $1999999901 O500                    Rejected X, A rejected, B free
12 price 2,147,483,647, cross N: X        s $2147483647 O500                    Rejected X, A rejected, B free
13 shares 999,999                         s O999999                             Accepted 999999 at 10000 for 99999 by ABCD, A live 999999-0-0=999999 for 99999, B free
13 shares 1,000,000: Z                    s O1000000                            Rejected Z, A rejected, B free
13 shares 0: Z                            s O0                                  Rejected Z, A rejected, B free
14 Replace naming one token twice         s O500 e100 = U500                    answer 1, nothing changed
15 a ring with 65 free                    R89 s $0 O500 k B $10000 O500         answer 9, nothing changed
15 a ring with 66 free                    R90 s $0 O500 k B $10000 O500         Accepted 500 at 10000 for 99999 by ABCD, A rejected intact, B live 500-0-0=500 for 99999, behind J
U minimum 400 of the new open 400         s O500 e100 t0 m400 U500              Replaced 400, A dead 100-100-0=0, B live 500-100-0=400 for 0
U minimum 401 of the new open 400         s O500 e100 t0 m401 U500              Canceled 400, A dead 100-100-0=0, B free
";
