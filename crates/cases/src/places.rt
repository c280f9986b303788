// The place that an answer 3 tells (Ask 1): a spoiled byte in each judged field of each kind, two of them, and answers that tell none.

// Columns: what it shows, the script, what should come of it.
pub(crate) const PLACES: &str = "\
O: stamp                                  ?1 O500                               answer 3 at 1, nothing changed
O: stamp, told from its first byte        ?3 O500                               answer 3 at 1, nothing changed
O: token, a character in the middle       ?14 O500                              answer 3 at 14, nothing changed
O: side                                   ?23 O500                              answer 3 at 23, nothing changed
O: sweep                                  ?50 O500                              answer 3 at 50, nothing changed
U: stamp                                  ?1 U500                               answer 3 at 1, nothing changed
U: token                                  ?9 U500                               answer 3 at 9, nothing changed
U: replacement token                      ?36 U500                              answer 3 at 36, nothing changed
U: sweep                                  ?50 U500                              answer 3 at 50, nothing changed
X: stamp                                  ?1 X500                               answer 3 at 1, nothing changed
X: token, its last character              ?22 X500                              answer 3 at 22, nothing changed
M: stamp                                  ?1 M500                               answer 3 at 1, nothing changed
M: token                                  ?10 M500                              answer 3 at 10, nothing changed
M: side                                   ?23 M500                              answer 3 at 23, nothing changed
e: stamp                                  ?1 e500                               answer 3 at 1, nothing changed
e: token                                  ?11 e500                              answer 3 at 11, nothing changed
e: flag                                   ?31 e500                              answer 3 at 31, nothing changed
c: stamp                                  ?1 c500                               answer 3 at 1, nothing changed
c: token                                  ?12 c500                              answer 3 at 12, nothing changed
c: reason                                 ?27 c500                              answer 3 at 27, nothing changed
q: stamp                                  ?1 q500                               answer 3 at 1, nothing changed
q: token                                  ?13 q500                              answer 3 at 13, nothing changed
q: flag                                   ?35 q500                              answer 3 at 35, nothing changed
p: stamp                                  ?1 p10000                             answer 3 at 1, nothing changed
p: token                                  ?15 p10000                            answer 3 at 15, nothing changed
p: price, of four bytes                   p0                                    answer 3 at 23, nothing changed
l: stamp                                  ?1 l                                  answer 3 at 1, nothing changed
l: token                                  ?16 l                                 answer 3 at 16, nothing changed
f: stamp                                  ?1 f                                  answer 3 at 1, nothing changed
f: token                                  ?17 f                                 answer 3 at 17, nothing changed
s: stamp                                  ?1 s                                  answer 3 at 1, nothing changed
s: event                                  ?9 s                                  answer 3 at 9, nothing changed
two bad characters: the first             ?20 ?12 O500                          answer 3 at 12, nothing changed
two bad fields: the first                 ?50 ?23 O500                          answer 3 at 23, nothing changed
a bad stamp and a bad letter: the stamp   ?23 ?1 M500                           answer 3 at 1, nothing changed
both tokens: the first                    ?30 ?15 U500                          answer 3 at 15, nothing changed
2 tells no place: a byte short, bad side  ?23 <1 O500                           answer 2, nothing changed
4 tells no place: too early               s @34199 O500                         answer 4, nothing changed
";
