// The errors that students really make (Errors that students really make), each with an entry or two that would show it.

// Columns: what it shows, the script, what should come of it.
pub(crate) const ERRORS: &str = "\
1 oldest dropped, half written: no room   R89 s $0 O500 k B $10000 O500         answer 9, nothing changed
1 oldest dropped, half written: room      R90 s $0 O500 k B $10000 O500         Accepted 500 at 10000 for 99999 by ABCD, A rejected intact, B live 500-0-0=500 for 99999, behind J
2 token stored though blocked             R89 s $0 O500 k B $10000 O500 g O500  Accepted 500 at 10000 for 99999 by ABCD, A rejected intact, B live 500-0-0=500 for 99999
3 Replace 500 as the exposure: 401        s O500 e100 U500 B e401               answer 6, nothing changed
3 Replace 500 as the exposure: 400        s O500 e100 U500 B e400               Executed 400, A dead 100-100-0=0 intact, B dead 500-500-0=0
4 token used up by bad details            s O500 e100 U100 B O500               Accepted 500 at 10000 for 99999 by ABCD, A dead 100-100-0=0 intact, B live 500-0-0=500 for 99999
5 a Cancel raises the size: 400 of 300    s O500 e100 X300 X400                 answer 1, nothing changed
";
