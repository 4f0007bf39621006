//! Lines of bidirectional classes without paired brackets, with their embedding levels and their visual order.

/// A row for each line: its name, the base level, the classes, the level of each index, and the indexes in visual order from the reading
/// edge. A name begins with the rule of UAX 9 that the line is about; that of a line of many classes, `mixed`, ends with some of the rules
/// that act on it. The first nine were worked out by hand. The others were computed from the rules of UAX 9 by whole passes, apart from
/// this program.
pub const LINES: &str = "\
W4: a separator behind a terminator | 1 | EN ET ES EN | 2 2 1 2 | 1 0 2 3
L1: a blank at the end | 0 | R WS R WS | 1 1 1 0 | 2 1 0 3
X6a: a PDI alone between two R | 0 | R PDI R | 1 1 1 | 2 1 0
L1: a PDI alone at the end | 0 | R PDI | 1 0 | 0 1
N2: blanks between L and R | 0 | L L WS R R WS L | 0 0 0 1 1 0 0 | 0 1 2 4 3 5 6
N1: a blank between R and a number | 1 | R R WS EN EN | 1 1 1 2 2 | 0 1 2 4 3
N1: neutrals between two R | 0 | L ON R ON WS R | 0 0 1 1 1 1 | 0 1 5 4 3 2
L1: an overridden blank at the end | 0 | R RLO WS PDF | 1 0 0 0 | 0 1 2 3
X8: a B inside an isolate | 0 | R LRI L B PDI R | 1 0 2 0 0 1 | 0 1 2 3 4 5
W1: marks behind L and R | 0 | L NSM R NSM | 0 0 1 1 | 0 1 3 2
W1: marks behind L and R, from the right | 1 | L NSM R NSM | 2 2 1 1 | 1 0 2 3
W2: a number behind AL and a mark | 0 | AL NSM EN | 1 1 2 | 2 1 0
W2: a number behind AL and a mark, from the right | 1 | AL NSM EN | 1 1 2 | 0 1 2
W7: numbers behind R and L | 0 | R EN L EN | 1 2 0 0 | 1 0 2 3
W7: numbers behind R and L, from the right | 1 | R EN L EN | 1 2 2 2 | 0 3 2 1
W4: a separator between numbers behind AL | 0 | AL EN ES EN | 1 2 1 2 | 3 2 1 0
W4: a separator between numbers behind AL, from the right | 1 | AL EN ES EN | 1 2 1 2 | 0 1 2 3
W4: separators between two numbers | 0 | EN ES EN CS EN ET | 0 0 0 0 0 0 | 0 1 2 3 4 5
W4: separators between two numbers, from the right | 1 | EN ES EN CS EN ET | 2 2 2 2 2 2 | 5 4 3 2 1 0
W5: terminators on both sides of a number | 0 | ET EN ET | 0 0 0 | 0 1 2
W5: terminators on both sides of a number, from the right | 1 | ET EN ET | 2 2 2 | 2 1 0
W4: a CS between AN, and one between EN and AN | 0 | AN CS AN EN CS AN | 2 2 2 0 0 2 | 0 1 2 3 4 5
W4: a CS between AN, and one between EN and AN, from the right | 1 | AN CS AN EN CS AN | 2 2 2 2 1 2 | 3 2 1 0 4 5
W5: two terminators before a number | 0 | R ET ET EN ET WS | 1 2 2 2 2 0 | 1 2 3 4 0 5
W5: two terminators before a number, from the right | 1 | R ET ET EN ET WS | 1 2 2 2 2 1 | 0 4 3 2 1 5
W1: a mark that begins an isolate, and one behind it | 0 | LRI NSM R PDI NSM L | 0 2 3 0 0 0 | 0 1 2 3 4 5
W1: a mark that begins an isolate, and one behind it, from the right | 1 | LRI NSM R PDI NSM L | 1 2 3 1 1 2 | 0 2 1 3 4 5
X5b: L in an isolate between two R | 0 | R LRI L PDI R | 1 1 2 1 1 | 4 3 2 1 0
X5b: L in an isolate between two R, from the right | 1 | R LRI L PDI R | 1 1 2 1 1 | 0 1 2 3 4
X5a: a number in an isolate, and one behind it | 0 | L RLI EN PDI EN | 0 0 2 0 0 | 0 1 2 3 4
X5a: a number in an isolate, and one behind it, from the right | 1 | L RLI EN PDI EN | 2 2 4 2 2 | 4 3 2 1 0
X5c: an isolate whose first strong class is R | 0 | FSI R L PDI L | 0 1 2 0 0 | 0 2 1 3 4
X5c: an isolate whose first strong class is R, from the right | 1 | FSI R L PDI L | 1 3 4 1 2 | 0 1 2 3 4
X5c: an isolate whose first strong class is L | 0 | FSI L R PDI R | 0 2 3 0 1 | 0 1 2 3 4
X5c: an isolate whose first strong class is L, from the right | 1 | FSI L R PDI R | 1 2 3 1 1 | 0 2 1 3 4
X5c: a strong class behind an inner isolate | 0 | FSI LRI R PDI L PDI R | 0 2 5 2 2 0 1 | 0 1 2 3 4 5 6
X5c: a strong class behind an inner isolate, from the right | 1 | FSI LRI R PDI L PDI R | 1 2 5 2 2 1 1 | 0 4 3 2 1 5 6
X5c: an isolate without a strong class | 0 | FSI WS PDI R | 0 2 0 1 | 0 1 2 3
X5c: an isolate without a strong class, from the right | 1 | FSI WS PDI R | 1 2 1 1 | 0 1 2 3
X4: classes that RLO overrides | 0 | RLO L EN AN PDF L | 0 1 1 1 1 0 | 0 4 3 2 1 5
X4: classes that RLO overrides, from the right | 1 | RLO L EN AN PDF L | 1 3 3 3 3 2 | 0 5 1 2 3 4
X5: classes that LRO overrides | 0 | LRO R AL EN PDF R | 0 2 2 2 2 1 | 0 5 1 2 3 4
X5: classes that LRO overrides, from the right | 1 | LRO R AL EN PDF R | 1 2 2 2 2 1 | 0 4 3 2 1 5
X2: L in an embedding | 0 | RLE L PDF R EN | 0 2 2 1 2 | 0 4 3 1 2
X2: L in an embedding, from the right | 1 | RLE L PDF R EN | 1 4 4 1 2 | 0 2 1 3 4
X3: R in an embedding | 0 | LRE R PDF WS R | 0 3 3 0 1 | 0 2 1 3 4
X3: R in an embedding, from the right | 1 | LRE R PDF WS R | 1 3 3 1 1 | 0 1 2 3 4
X7: a PDF and a PDI that match nothing | 0 | PDF PDI L R | 0 0 0 1 | 0 1 2 3
X7: a PDF and a PDI that match nothing, from the right | 1 | PDF PDI L R | 1 1 2 1 | 0 1 2 3
X5a: an isolate that is not closed | 0 | RLI R | 0 1 | 0 1
X5a: an isolate that is not closed, from the right | 1 | RLI R | 1 3 | 0 1
L1: an RLI at the end | 0 | L RLI | 0 0 | 0 1
L1: an RLI at the end, from the right | 1 | L RLI | 2 1 | 0 1
L1: blanks at the end | 0 | R WS WS | 1 0 0 | 0 1 2
L1: blanks at the end, from the right | 1 | R WS WS | 1 1 1 | 0 1 2
L1: blanks before an S and at the end | 0 | L WS S WS R WS | 0 0 0 0 1 0 | 0 1 2 3 4 5
L1: blanks before an S and at the end, from the right | 1 | L WS S WS R WS | 2 1 1 1 1 1 | 0 1 2 3 4 5
L1: an S at both ends | 0 | S R WS S | 0 1 0 0 | 0 1 2 3
L1: an S at both ends, from the right | 1 | S R WS S | 1 1 1 1 | 0 1 2 3
L1: a B at the end | 0 | WS R B | 0 1 0 | 0 1 2
L1: a B at the end, from the right | 1 | WS R B | 1 1 1 | 0 1 2
L1: a blank between two BN at the end | 0 | R BN WS BN | 1 0 0 0 | 0 1 2 3
L1: a blank between two BN at the end, from the right | 1 | R BN WS BN | 1 1 1 1 | 0 1 2 3
X9: a BN between a terminator and a number | 0 | BN BN R ET BN EN | 0 0 1 2 2 2 | 0 1 3 4 5 2
X9: a BN between a terminator and a number, from the right | 1 | BN BN R ET BN EN | 1 1 1 2 2 2 | 0 1 2 5 4 3
X9: a BN between a number and a terminator | 0 | EN BN ET | 0 0 0 | 0 1 2
X9: a BN between a number and a terminator, from the right | 1 | EN BN ET | 2 2 2 | 2 1 0
X9: a BN between AL and a number | 0 | AL BN EN | 1 1 2 | 2 1 0
X9: a BN between AL and a number, from the right | 1 | AL BN EN | 1 1 2 | 0 1 2
N2: neutrals between L and R | 0 | L ON R ON L | 0 0 1 0 0 | 0 1 2 3 4
N2: neutrals between L and R, from the right | 1 | L ON R ON L | 2 1 1 1 2 | 0 1 2 3 4
N1: neutrals beside numbers | 0 | R ON EN ON AN ON L | 1 1 2 1 2 0 0 | 4 3 2 1 0 5 6
N1: neutrals beside numbers, from the right | 1 | R ON EN ON AN ON L | 1 1 2 1 2 1 2 | 0 1 2 3 4 5 6
N2: a neutral between a number and L | 0 | R EN ON L | 1 2 0 0 | 1 0 2 3
N2: a neutral between a number and L, from the right | 1 | R EN ON L | 1 2 1 2 | 0 1 2 3
BD13: isolates inside isolates | 0 | LRI RLI LRI L PDI R PDI AN PDI R | 0 2 3 4 3 3 2 4 0 1 | 0 1 5 4 3 2 6 7 8 9
BD13: isolates inside isolates, from the right | 1 | LRI RLI LRI L PDI R PDI AN PDI R | 1 2 3 4 3 3 2 4 1 1 | 0 7 6 2 3 4 5 1 8 9
X7: a PDF inside an isolate that ends no embedding | 0 | RLE LRI R PDF PDI L PDF R | 0 1 3 3 1 2 2 1 | 0 7 5 6 4 3 2 1
X7: a PDF inside an isolate that ends no embedding, from the right | 1 | RLE LRI R PDF PDI L PDF R | 1 3 5 5 3 4 4 1 | 0 1 2 3 4 6 5 7
X7: a PDF that begins an isolate | 0 | RLI PDF L PDI R | 0 0 2 0 1 | 0 1 2 3 4
X7: a PDF that begins an isolate, from the right | 1 | RLI PDF L PDI R | 1 1 4 1 1 | 0 1 2 3 4
X7: a PDF inside an isolate, and one behind it | 0 | LRE LRI PDF R PDI PDF R | 0 2 2 5 2 2 1 | 0 6 1 2 3 4 5
X7: a PDF inside an isolate, and one behind it, from the right | 1 | LRE LRI PDF R PDI PDF R | 1 2 2 5 2 2 1 | 0 5 4 3 2 1 6
X6a: a PDI that RLO overrides | 0 | RLO PDI PDF RLE NSM | 0 1 1 1 1 | 0 4 3 2 1
X6a: a PDI that RLO overrides, from the right | 1 | RLO PDI PDF RLE NSM | 1 3 3 3 3 | 0 1 2 3 4
X5a: an isolate that RLO overrides | 0 | RLO RLI NSM PDI PDF NSM | 0 1 3 1 1 1 | 0 5 4 3 2 1
X5a: an isolate that RLO overrides, from the right | 1 | RLO RLI NSM PDI PDF NSM | 1 3 5 3 3 1 | 0 1 2 3 4 5
W1: a mark behind an empty isolate | 0 | R LRI PDI NSM | 1 0 0 0 | 0 1 2 3
W1: a mark behind an empty isolate, from the right | 1 | R LRI PDI NSM | 1 1 1 1 | 0 1 2 3
W6: a separator between R and a number | 0 | R ES EN | 1 1 2 | 2 1 0
W6: a separator between R and a number, from the right | 1 | R ES EN | 1 1 2 | 0 1 2
W6: two ES between numbers | 0 | EN ES ES EN | 0 0 0 0 | 0 1 2 3
W6: two ES between numbers, from the right | 1 | EN ES ES EN | 2 1 1 2 | 0 1 2 3
W6: an ES between two AN | 0 | AN ES AN | 2 1 2 | 2 1 0
W6: an ES between two AN, from the right | 1 | AN ES AN | 2 1 2 | 0 1 2
W6: two CS between numbers | 0 | EN CS CS EN | 0 0 0 0 | 0 1 2 3
W6: two CS between numbers, from the right | 1 | EN CS CS EN | 2 1 1 2 | 0 1 2 3
W6: terminators before AN | 0 | ET ET AN | 0 0 2 | 0 1 2
W6: terminators before AN, from the right | 1 | ET ET AN | 1 1 2 | 0 1 2
W6: terminators before L | 0 | ET ET L | 0 0 0 | 0 1 2
W6: terminators before L, from the right | 1 | ET ET L | 1 1 2 | 0 1 2
X9: a BN between two terminators | 0 | ET BN ET EN | 0 0 0 0 | 0 1 2 3
X9: a BN between two terminators, from the right | 1 | ET BN ET EN | 2 2 2 2 | 3 2 1 0
W7: a terminator and a number behind L | 0 | L ET EN R | 0 0 0 1 | 0 1 2 3
W7: a terminator and a number behind L, from the right | 1 | L ET EN R | 2 2 2 1 | 2 1 0 3
W5: a terminator and a number between R and L | 0 | R ET EN L | 1 2 2 0 | 1 2 0 3
W5: a terminator and a number between R and L, from the right | 1 | R ET EN L | 1 2 2 2 | 0 3 2 1
W7: a number behind L and an S | 0 | L S EN | 0 0 0 | 0 1 2
W7: a number behind L and an S, from the right | 1 | L S EN | 2 1 2 | 0 1 2
W2: a number behind AL and L | 0 | AL L EN | 1 0 0 | 0 1 2
W2: a number behind AL and L, from the right | 1 | AL L EN | 1 2 2 | 0 2 1
W2: a number behind AL and R | 0 | AL R EN | 1 1 2 | 2 1 0
W2: a number behind AL and R, from the right | 1 | AL R EN | 1 1 2 | 0 1 2
W2: a number behind AL and a neutral | 0 | AL ON EN | 1 1 2 | 2 1 0
W2: a number behind AL and a neutral, from the right | 1 | AL ON EN | 1 1 2 | 0 1 2
W1: marks at the start | 0 | NSM NSM R | 0 0 1 | 0 1 2
W1: marks at the start, from the right | 1 | NSM NSM R | 1 1 1 | 0 1 2
W1: a mark behind a PDI alone | 0 | PDI NSM R | 0 0 1 | 0 1 2
W1: a mark behind a PDI alone, from the right | 1 | PDI NSM R | 1 1 1 | 0 1 2
W7: a number behind isolates of L and R | 0 | LRI L PDI LRI R PDI EN | 0 2 0 0 3 0 0 | 0 1 2 3 4 5 6
W7: a number behind isolates of L and R, from the right | 1 | LRI L PDI LRI R PDI EN | 1 2 1 1 3 1 2 | 0 1 2 3 4 5 6
N2: an isolate between R and L, and neutrals inside and behind it | 0 | R RLI ON PDI L ON | 1 0 1 0 0 0 | 0 1 2 3 4 5
N2: an isolate between R and L, and neutrals inside and behind it, from the right | 1 | R RLI ON PDI L ON | 1 1 3 1 2 1 | 0 1 2 3 4 5
X3: embeddings inside embeddings | 0 | L LRE RLE LRE R PDF PDF PDF L | 0 0 0 0 5 5 5 5 0 | 0 1 2 3 7 6 5 4 8
X3: embeddings inside embeddings, from the right | 1 | L LRE RLE LRE R PDF PDF PDF L | 2 2 2 2 5 5 5 5 2 | 8 4 5 6 7 3 2 1 0
X8: a B before L | 0 | B L | 0 0 | 0 1
X8: a B before L, from the right | 1 | B L | 1 2 | 0 1
L1: a B behind R | 0 | R B | 1 0 | 0 1
L1: a B behind R, from the right | 1 | R B | 1 1 | 0 1
mixed 1: X7, W1 | 1 | PDF NSM R EN | 1 1 1 2 | 0 1 2 3
mixed 2: X4, X5c, W3 | 1 | FSI RLO CS PDI R AL S | 1 1 3 1 1 1 1 | 0 1 2 3 4 5 6
mixed 3: X3, X4, L1 | 1 | R ON LRI L LRI NSM S WS ON LRE CS L L RLO | 1 1 1 2 2 4 1 4 4 4 6 6 6 1 | 0 1 2 5 4 3 6 12 11 10 9 8 7 13
mixed 4: X2, X5c, W5 | 0 | ET EN FSI EN ET R WS EN RLE NSM R ON | 0 0 0 2 2 1 1 2 2 3 3 3 | 0 1 2 7 8 11 10 9 6 5 3 4
mixed 5: X5b, X7, W2 | 1 | R R ON CS S L LRI LRI ON PDF AL ES WS EN | 1 1 1 1 1 2 1 2 4 4 5 5 5 6 | 0 1 2 3 4 5 6 10 11 12 13 9 8 7
mixed 6: X2, X6a, W1 | 1 | R RLE PDI RLE NSM | 1 1 3 3 5 | 0 1 2 3 4
mixed 7: X5a, N1, N2 | 0 | AN RLI EN R L ON WS L | 2 0 2 1 2 2 2 2 | 0 1 4 5 6 7 3 2
mixed 8: X3, W7, L1 | 0 | WS LRE PDI S EN | 0 0 0 0 2 | 0 1 2 3 4
mixed 9: X5b, W6, N2 | 0 | PDI L ON PDI LRI R ET L | 0 0 0 0 0 3 2 2 | 0 1 2 3 4 5 6 7
mixed 10: X2, X3, N2 | 1 | S L R EN PDI LRE RLE ET | 1 2 1 2 1 1 1 3 | 0 1 2 3 4 5 6 7
mixed 11: X2, X5, L1 | 1 | CS NSM PDI RLE AN ON R LRO RLI AL RLI | 1 1 1 1 4 3 3 3 4 5 1 | 0 1 2 3 4 5 6 7 9 8 10
mixed 12: X5b, X7, W6 | 0 | LRI PDI CS L PDF L PDF S | 0 0 0 0 0 0 0 0 | 0 1 2 3 4 5 6 7
mixed 13: X6a, W3, W6 | 1 | R PDI AL S S ET PDI BN | 1 1 1 1 1 1 1 1 | 0 1 2 3 4 5 6 7
mixed 14: X5, X7, W1 | 1 | BN LRO L PDF NSM R WS WS R R R NSM L PDI | 1 1 2 2 2 1 1 1 1 1 1 1 2 1 | 0 1 4 3 2 5 6 7 8 9 10 11 12 13
mixed 15: X5a, X6a, W6 | 1 | ON EN ES R RLI PDI | 1 2 1 1 1 1 | 0 1 2 3 4 5
mixed 16: W3, W6, N2 | 0 | L PDI AN AN CS AL | 0 0 2 2 1 1 | 0 1 5 4 2 3
mixed 17: X5b, W7, N2 | 1 | L WS CS CS ON ON EN PDI ET WS PDI LRI | 2 2 2 2 2 2 2 1 1 1 1 1 | 6 5 4 3 2 1 0 7 8 9 10 11
mixed 18: X4, X7, W1 | 0 | NSM PDI L RLO PDF ET AL PDI | 0 0 0 0 0 0 1 0 | 0 1 2 3 4 5 6 7
mixed 19: X6a, N2 | 0 | R ON L R PDI | 1 0 0 1 0 | 0 1 2 3 4
mixed 20: W6, N1 | 1 | AN CS ON ET | 2 1 1 1 | 0 1 2 3
mixed 21: X7, W5, W7 | 0 | R EN EN L AL PDF L WS WS EN ET | 1 2 2 0 1 1 0 0 0 0 0 | 1 2 0 3 5 4 6 7 8 9 10
mixed 22: W2, W3, W7 | 0 | ON R EN AL ET WS ET ES EN L BN EN AN | 0 1 2 1 1 1 1 1 2 0 0 0 2 | 0 8 7 6 5 4 3 2 1 9 10 11 12
mixed 23: X5a, W7, L1 | 1 | WS ON WS EN PDI RLI ET S L L EN | 1 1 1 2 1 1 3 1 4 4 4 | 0 1 2 3 4 5 6 7 10 9 8
mixed 24: X4, X5c, L1 | 0 | RLO WS AN L L S ES R RLI FSI PDI EN | 0 1 1 1 1 0 1 1 1 3 3 4 | 0 4 3 2 1 5 11 10 9 8 7 6
mixed 25: X2, W3, W7 | 0 | RLE WS ES BN ES R AL L AN EN | 0 1 1 1 1 1 1 2 2 2 | 0 7 8 9 6 5 4 3 2 1
mixed 26: X4, X5b, N2 | 0 | PDI PDI RLO ES LRI PDI L | 0 0 0 1 1 1 1 | 0 1 2 6 5 4 3
mixed 27: X6a, N1 | 0 | R R R R PDI EN L AN R | 1 1 1 1 1 2 0 2 1 | 5 4 3 2 1 0 6 8 7
mixed 28: W2, W3, N2 | 0 | ON AL EN CS S | 0 1 2 0 0 | 0 2 1 3 4
mixed 29: W1, W2, W3 | 1 | R AN NSM PDI EN L ES AL EN | 1 2 2 1 2 2 1 1 2 | 0 2 1 3 5 4 6 7 8
mixed 30: X5a, X7, W6 | 1 | ES AN WS S ET RLI PDF | 1 2 1 1 1 1 1 | 0 1 2 3 4 5 6
mixed 31: X5, X5b, X7 | 0 | ET LRO PDF LRI ON BN NSM L R WS NSM WS NSM | 0 0 0 0 2 2 2 2 3 2 2 2 2 | 0 1 2 3 4 5 6 7 8 9 10 11 12
mixed 32: X5b, W1, W7 | 0 | L NSM WS R R WS LRI L EN R R PDI NSM | 0 0 0 1 1 0 0 2 2 3 3 0 0 | 0 1 2 4 3 5 6 7 8 10 9 11 12
mixed 33: X6a, W5, W7 | 0 | S ON ET EN ET AN AN PDI AN EN | 0 0 0 0 0 2 2 1 2 0 | 0 1 2 3 4 8 7 5 6 9
mixed 34: X5a, X5c, L1 | 1 | NSM RLI WS FSI | 1 1 1 1 | 0 1 2 3
mixed 35: X5a, X5c, X7 | 0 | L R FSI RLI PDF ET | 0 1 0 2 2 3 | 0 1 2 3 4 5
mixed 36: X4, X5b, L1 | 0 | AL LRI L PDI ON ET RLI RLO NSM RLI WS | 1 0 2 0 0 0 0 0 3 0 0 | 0 1 2 3 4 5 6 7 8 9 10
mixed 37: X6a, W3, N2 | 1 | AL L PDI R | 1 2 1 1 | 0 1 2 3
mixed 38: X2, X6a, N2 | 1 | PDI L WS R RLE | 1 2 1 1 1 | 0 1 2 3 4
mixed 39: X5b, X7, W1 | 1 | WS CS R L ON L LRI PDF NSM | 1 1 1 2 2 2 1 1 2 | 0 1 2 5 4 3 6 7 8
mixed 40: X5a, W1, W3 | 0 | L S NSM AL AL RLI NSM EN | 0 0 0 1 1 0 1 2 | 0 1 2 4 3 5 7 6
mixed 41: X5b, N1 | 1 | WS S LRI ON | 1 1 1 2 | 0 1 2 3
mixed 42: X6a, N1 | 1 | ON AN PDI ON | 1 2 1 1 | 0 1 2 3
mixed 43: X3, X5, L1 | 1 | LRO WS LRE ON PDI WS WS AL R NSM WS | 1 2 2 4 4 4 4 5 5 5 1 | 0 7 8 9 6 5 4 3 2 1 10
mixed 44: X5a, W6, W7 | 0 | PDI EN RLI CS AN PDI | 0 0 0 1 2 0 | 0 1 2 4 3 5
mixed 45: X5b, N2 | 0 | R BN R EN WS LRI ON R | 1 1 1 2 0 0 2 3 | 3 2 1 0 4 5 6 7
mixed 46: X5a, W7, N2 | 0 | RLI WS ON L EN CS L | 0 1 1 2 2 2 2 | 0 3 4 5 6 2 1
mixed 47: W1, W3, W6 | 0 | R AL NSM PDI ES AL NSM L | 1 1 1 1 1 1 1 0 | 6 5 4 3 2 1 0 7
mixed 48: X5, W7, L1 | 0 | CS AN EN ON WS EN LRO AN S L R AN | 0 2 0 0 0 0 0 2 0 2 2 2 | 0 1 2 3 4 5 6 7 8 9 10 11
mixed 49: X4, X5, X5a | 1 | AL ES CS LRO RLO PDI NSM EN PDI PDI RLO RLI ON | 1 1 1 1 1 3 3 3 3 3 3 5 7 | 0 1 2 3 4 5 6 7 8 9 10 11 12
mixed 50: X2, W3, N2 | 0 | ON L WS AL AN AL ON RLE | 0 0 0 1 2 1 0 0 | 0 1 2 5 4 3 6 7
mixed 51: X7, W3, W7 | 1 | WS ES S L EN ES AL PDI PDF | 1 1 1 2 2 1 1 1 1 | 0 1 2 4 3 5 6 7 8
mixed 52: X2, X5b, W7 | 0 | R LRI L PDF PDI PDI CS ES EN CS L EN ON RLE | 1 1 2 2 1 1 1 1 2 0 0 0 0 0 | 8 7 6 5 4 2 3 1 0 9 10 11 12 13
mixed 53: X3, X5b, L1 | 0 | NSM ON L NSM LRE PDI RLI L ET LRI AN R PDF WS | 0 0 0 0 0 2 2 4 3 3 6 5 0 0 | 0 1 2 3 4 5 6 11 10 9 8 7 12 13
mixed 54: X5, W1, W6 | 1 | R ES NSM WS LRO | 1 1 1 1 1 | 0 1 2 3 4
mixed 55: X6a, N1 | 1 | ON WS PDI EN | 1 1 1 2 | 0 1 2 3
mixed 56: W6, W7, N1 | 0 | ON ET L ES EN R | 0 0 0 0 0 1 | 0 1 2 3 4 5
mixed 57: X5c, L1 | 1 | ON AN PDI FSI ON L RLI AN LRI LRI NSM NSM ON PDF | 1 2 1 1 2 2 2 4 3 4 6 6 6 1 | 0 1 2 3 7 8 12 11 10 9 6 5 4 13
mixed 58: X2, X5b, W7 | 0 | L ON ET RLE PDF LRI EN PDI PDI | 0 0 0 0 0 0 2 0 0 | 0 1 2 3 4 5 6 7 8
mixed 59: X6a, W1, W6 | 1 | WS ES EN NSM PDI EN R AN | 1 1 2 2 1 2 1 2 | 0 1 3 2 4 5 6 7
mixed 60: X5b, X5c, L1 | 1 | FSI LRI ON PDI PDI | 1 2 4 1 1 | 0 2 1 3 4
mixed 61: X2, X5b, X7 | 1 | AN AN PDF WS LRI ON LRI RLE R | 2 2 2 1 1 2 2 2 5 | 2 1 0 3 4 8 7 6 5
mixed 62: X7, W1, W7 | 0 | EN BN NSM PDI WS L R AL R PDF AN WS EN L | 0 0 0 0 0 0 1 1 1 1 2 1 2 0 | 0 1 2 3 4 5 12 11 10 9 8 7 6 13
mixed 63: X2, X5b, L1 | 0 | L PDI WS ET CS RLE RLI ON LRI PDF | 0 0 0 0 0 0 1 3 0 0 | 0 1 2 3 4 5 7 6 8 9
mixed 64: X5b, X7, N2 | 0 | PDF AN PDF LRI R | 0 2 2 0 3 | 0 1 2 3 4
mixed 65: X2, X5c, L1 | 1 | RLE EN R RLI NSM WS FSI | 1 4 3 3 5 1 1 | 0 1 2 3 4 5 6
mixed 66: X4, W1, N1 | 1 | EN AN WS AN NSM RLO NSM R AN | 2 2 1 2 2 2 3 3 3 | 1 0 2 6 7 8 5 4 3
mixed 67: X2, X5a, X5b | 1 | EN RLE NSM LRI NSM R RLE PDI R WS L RLI ON | 2 2 3 3 4 5 5 3 3 3 4 3 5 | 2 3 5 6 4 7 8 9 10 11 12 1 0
mixed 68: X4 | 0 | RLO WS AN R | 0 1 1 1 | 0 3 2 1
mixed 69: X3, W2, W7 | 0 | ON CS ON L EN LRE L NSM AL EN R RLI | 0 0 0 0 0 0 2 2 3 4 3 0 | 0 1 2 3 4 5 6 7 10 9 8 11
mixed 70: X5c, W1, L1 | 0 | NSM R ES ET R FSI WS | 0 1 1 1 1 0 0 | 0 4 3 2 1 5 6
mixed 71: X5a, W6, N1 | 0 | ES RLI EN EN EN | 0 0 2 2 2 | 0 1 2 3 4
mixed 72: X5, W1, L1 | 0 | NSM BN LRO WS BN | 0 0 0 0 0 | 0 1 2 3 4
mixed 73: X3, X5, W7 | 0 | LRO PDI EN ET RLI L EN CS LRE R CS AN PDI ON | 0 2 2 2 2 4 4 4 4 5 5 6 2 2 | 0 1 2 3 4 5 6 7 8 11 10 9 12 13
mixed 74: X5b, W1, W7 | 0 | EN L LRI PDI L R ET AN S PDI NSM | 0 0 0 0 0 1 1 2 0 0 0 | 0 1 2 3 4 7 6 5 8 9 10
mixed 75: X4, W1, W3 | 1 | ON ET PDI NSM ON AL WS RLO L | 1 1 1 1 1 1 1 1 3 | 0 1 2 3 4 5 6 7 8
mixed 76: X6a, W3, W6 | 1 | AL PDI ES PDI PDI WS R | 1 1 1 1 1 1 1 | 0 1 2 3 4 5 6
mixed 77: X6a, W3, N2 | 0 | PDI AL R ON ON L | 0 1 1 0 0 0 | 0 2 1 3 4 5
mixed 78: X5a, W1, W7 | 0 | AN AN ES AN EN EN L RLI WS NSM PDI WS AN AL | 2 2 1 2 0 0 0 0 1 1 0 0 2 1 | 3 2 0 1 4 5 6 7 9 8 10 11 13 12
mixed 79: X2, X7, W2 | 1 | EN AN L R AL AN EN PDF AN ES AN RLE RLE L | 2 2 2 1 1 2 2 2 2 1 2 2 2 6 | 2 1 0 3 4 8 7 6 5 9 13 12 11 10
mixed 80: X3, X5a, L1 | 0 | WS WS PDI WS AL CS PDI PDI NSM R LRE AN RLI | 0 0 0 0 1 1 1 1 1 1 1 4 0 | 0 1 2 3 11 10 9 8 7 6 5 4 12
mixed 81: X5, X7, L1 | 0 | PDI LRO EN EN PDF | 0 0 2 2 0 | 0 1 2 3 4
mixed 82: X3, W7, L1 | 1 | LRE PDF LRI S PDF EN AL L LRI RLI EN LRE | 1 1 1 1 2 2 3 2 2 4 6 1 | 0 1 2 3 10 9 8 7 6 5 4 11
mixed 83: X5c, X7, L1 | 0 | NSM AL ES PDI NSM WS AN CS L PDI FSI AN PDF | 0 1 1 1 1 1 2 0 0 0 0 4 0 | 0 6 5 4 3 2 1 7 8 9 10 11 12
mixed 84: X4 | 0 | RLO L AL R | 0 1 1 1 | 0 3 2 1
mixed 85: W1, W7, N2 | 0 | AN CS EN AN EN NSM NSM EN L WS ON ET NSM L | 2 0 0 2 0 0 0 0 0 0 0 0 0 0 | 0 1 2 3 4 5 6 7 8 9 10 11 12 13
mixed 86: X6a, W3, W6 | 0 | PDI ES PDI BN L AL | 0 0 0 0 0 1 | 0 1 2 3 4 5
mixed 87: X3, X5, W2 | 0 | L ON AL PDF PDI EN LRE LRO EN | 0 0 1 1 1 2 2 2 4 | 0 1 5 6 7 8 4 3 2
mixed 88: X5b, W2, L1 | 0 | LRI RLI PDF AL WS EN WS BN RLI PDF | 0 2 2 3 3 4 0 0 0 0 | 0 1 2 5 4 3 6 7 8 9
mixed 89: X4, X6a, L1 | 1 | RLO AN PDI S L | 1 3 1 1 3 | 0 1 2 3 4
mixed 90: X4, W3, N2 | 0 | ET CS AL AL WS L ON R RLO R R CS | 0 0 1 1 0 0 0 1 1 1 1 1 | 0 1 3 2 4 5 6 11 10 9 8 7
BD2: 128 embeddings, one inside the other | 0 | RLE LRE RLE LRE RLE LRE RLE LRE RLE LRE RLE LRE RLE LRE RLE LRE RLE LRE RLE LRE RLE LRE RLE LRE RLE LRE RLE LRE RLE LRE RLE LRE RLE LRE RLE LRE RLE LRE RLE LRE RLE LRE RLE LRE RLE LRE RLE LRE RLE LRE RLE LRE RLE LRE RLE LRE RLE LRE RLE LRE RLE LRE RLE LRE RLE LRE RLE LRE RLE LRE RLE LRE RLE LRE RLE LRE RLE LRE RLE LRE RLE LRE RLE LRE RLE LRE RLE LRE RLE LRE RLE LRE RLE LRE RLE LRE RLE LRE RLE LRE RLE LRE RLE LRE RLE LRE RLE LRE RLE LRE RLE LRE RLE LRE RLE LRE RLE LRE RLE LRE RLE LRE RLE LRE RLE LRE RLE LRE R EN AN | 0 0 0 0 0 0 0 0 0 0 0 0 0 0 0 0 0 0 0 0 0 0 0 0 0 0 0 0 0 0 0 0 0 0 0 0 0 0 0 0 0 0 0 0 0 0 0 0 0 0 0 0 0 0 0 0 0 0 0 0 0 0 0 0 0 0 0 0 0 0 0 0 0 0 0 0 0 0 0 0 0 0 0 0 0 0 0 0 0 0 0 0 0 0 0 0 0 0 0 0 0 0 0 0 0 0 0 0 0 0 0 0 0 0 0 0 0 0 0 0 0 0 0 0 0 0 0 0 125 126 126 | 0 1 2 3 4 5 6 7 8 9 10 11 12 13 14 15 16 17 18 19 20 21 22 23 24 25 26 27 28 29 30 31 32 33 34 35 36 37 38 39 40 41 42 43 44 45 46 47 48 49 50 51 52 53 54 55 56 57 58 59 60 61 62 63 64 65 66 67 68 69 70 71 72 73 74 75 76 77 78 79 80 81 82 83 84 85 86 87 88 89 90 91 92 93 94 95 96 97 98 99 100 101 102 103 104 105 106 107 108 109 110 111 112 113 114 115 116 117 118 119 120 121 122 123 124 125 126 127 129 130 128
BD2: 130 isolates, one inside the other | 0 | RLI RLI RLI RLI RLI RLI RLI RLI RLI RLI RLI RLI RLI RLI RLI RLI RLI RLI RLI RLI RLI RLI RLI RLI RLI RLI RLI RLI RLI RLI RLI RLI RLI RLI RLI RLI RLI RLI RLI RLI RLI RLI RLI RLI RLI RLI RLI RLI RLI RLI RLI RLI RLI RLI RLI RLI RLI RLI RLI RLI RLI RLI RLI RLI RLI RLI RLI RLI RLI RLI RLI RLI RLI RLI RLI RLI RLI RLI RLI RLI RLI RLI RLI RLI RLI RLI RLI RLI RLI RLI RLI RLI RLI RLI RLI RLI RLI RLI RLI RLI RLI RLI RLI RLI RLI RLI RLI RLI RLI RLI RLI RLI RLI RLI RLI RLI RLI RLI RLI RLI RLI RLI RLI RLI RLI RLI RLI RLI RLI RLI L PDI PDI PDI PDI PDI PDI PDI PDI PDI PDI PDI PDI PDI PDI PDI PDI PDI PDI PDI PDI PDI PDI PDI PDI PDI PDI PDI PDI PDI PDI PDI PDI PDI PDI PDI PDI PDI PDI PDI PDI PDI PDI PDI PDI PDI PDI PDI PDI PDI PDI PDI PDI PDI PDI PDI PDI PDI PDI PDI PDI PDI PDI PDI PDI PDI PDI PDI PDI PDI PDI PDI PDI PDI PDI PDI PDI PDI PDI PDI PDI PDI PDI PDI PDI PDI PDI PDI PDI PDI PDI PDI PDI PDI PDI PDI PDI PDI PDI PDI PDI PDI PDI PDI PDI PDI PDI PDI PDI PDI PDI PDI PDI PDI PDI PDI PDI PDI PDI PDI PDI PDI PDI PDI PDI PDI PDI PDI PDI PDI PDI R | 0 1 3 5 7 9 11 13 15 17 19 21 23 25 27 29 31 33 35 37 39 41 43 45 47 49 51 53 55 57 59 61 63 65 67 69 71 73 75 77 79 81 83 85 87 89 91 93 95 97 99 101 103 105 107 109 111 113 115 117 119 121 123 125 125 125 125 125 125 125 125 125 125 125 125 125 125 125 125 125 125 125 125 125 125 125 125 125 125 125 125 125 125 125 125 125 125 125 125 125 125 125 125 125 125 125 125 125 125 125 125 125 125 125 125 125 125 125 125 125 125 125 125 125 125 125 125 125 125 125 126 125 125 125 125 125 125 125 125 125 125 125 125 125 125 125 125 125 125 125 125 125 125 125 125 125 125 125 125 125 125 125 125 125 125 125 125 125 125 125 125 125 125 125 125 125 125 125 125 125 125 125 125 125 125 125 125 125 125 125 125 125 125 125 125 125 125 125 123 121 119 117 115 113 111 109 107 105 103 101 99 97 95 93 91 89 87 85 83 81 79 77 75 73 71 69 67 65 63 61 59 57 55 53 51 49 47 45 43 41 39 37 35 33 31 29 27 25 23 21 19 17 15 13 11 9 7 5 3 1 0 1 | 0 259 258 257 256 255 254 253 252 251 250 249 248 247 246 245 244 243 242 241 240 239 238 237 236 235 234 233 232 231 230 229 228 227 226 225 224 223 222 221 220 219 218 217 216 215 214 213 212 211 210 209 208 207 206 205 204 203 202 201 200 199 198 197 196 195 194 193 192 191 190 189 188 187 186 185 184 183 182 181 180 179 178 177 176 175 174 173 172 171 170 169 168 167 166 165 164 163 162 161 160 159 158 157 156 155 154 153 152 151 150 149 148 147 146 145 144 143 142 141 140 139 138 137 136 135 134 133 132 131 130 129 128 127 126 125 124 123 122 121 120 119 118 117 116 115 114 113 112 111 110 109 108 107 106 105 104 103 102 101 100 99 98 97 96 95 94 93 92 91 90 89 88 87 86 85 84 83 82 81 80 79 78 77 76 75 74 73 72 71 70 69 68 67 66 65 64 63 62 61 60 59 58 57 56 55 54 53 52 51 50 49 48 47 46 45 44 43 42 41 40 39 38 37 36 35 34 33 32 31 30 29 28 27 26 25 24 23 22 21 20 19 18 17 16 15 14 13 12 11 10 9 8 7 6 5 4 3 2 1 260 261
BD2: 128 isolates and embeddings in turn | 0 | LRI RLE LRI RLE LRI RLE LRI RLE LRI RLE LRI RLE LRI RLE LRI RLE LRI RLE LRI RLE LRI RLE LRI RLE LRI RLE LRI RLE LRI RLE LRI RLE LRI RLE LRI RLE LRI RLE LRI RLE LRI RLE LRI RLE LRI RLE LRI RLE LRI RLE LRI RLE LRI RLE LRI RLE LRI RLE LRI RLE LRI RLE LRI RLE LRI RLE LRI RLE LRI RLE LRI RLE LRI RLE LRI RLE LRI RLE LRI RLE LRI RLE LRI RLE LRI RLE LRI RLE LRI RLE LRI RLE LRI RLE LRI RLE LRI RLE LRI RLE LRI RLE LRI RLE LRI RLE LRI RLE LRI RLE LRI RLE LRI RLE LRI RLE LRI RLE LRI RLE LRI RLE LRI RLE LRI RLE LRI RLE EN PDI PDI PDF AN | 0 0 3 3 5 5 7 7 9 9 11 11 13 13 15 15 17 17 19 19 21 21 23 23 25 25 27 27 29 29 31 31 33 33 35 35 37 37 39 39 41 41 43 43 45 45 47 47 49 49 51 51 53 53 55 55 57 57 59 59 61 61 63 63 65 65 67 67 69 69 71 71 73 73 75 75 77 77 79 79 81 81 83 83 85 85 87 87 89 89 91 91 93 93 95 95 97 97 99 99 101 101 103 103 105 105 107 107 109 109 111 111 113 113 115 115 117 117 119 119 121 121 123 123 125 125 125 125 126 125 125 125 126 | 0 1 132 131 130 129 128 127 126 125 124 123 122 121 120 119 118 117 116 115 114 113 112 111 110 109 108 107 106 105 104 103 102 101 100 99 98 97 96 95 94 93 92 91 90 89 88 87 86 85 84 83 82 81 80 79 78 77 76 75 74 73 72 71 70 69 68 67 66 65 64 63 62 61 60 59 58 57 56 55 54 53 52 51 50 49 48 47 46 45 44 43 42 41 40 39 38 37 36 35 34 33 32 31 30 29 28 27 26 25 24 23 22 21 20 19 18 17 16 15 14 13 12 11 10 9 8 7 6 5 4 3 2
BD2: 128 embeddings, one inside the other, from the right | 1 | RLE LRE RLE LRE RLE LRE RLE LRE RLE LRE RLE LRE RLE LRE RLE LRE RLE LRE RLE LRE RLE LRE RLE LRE RLE LRE RLE LRE RLE LRE RLE LRE RLE LRE RLE LRE RLE LRE RLE LRE RLE LRE RLE LRE RLE LRE RLE LRE RLE LRE RLE LRE RLE LRE RLE LRE RLE LRE RLE LRE RLE LRE RLE LRE RLE LRE RLE LRE RLE LRE RLE LRE RLE LRE RLE LRE RLE LRE RLE LRE RLE LRE RLE LRE RLE LRE RLE LRE RLE LRE RLE LRE RLE LRE RLE LRE RLE LRE RLE LRE RLE LRE RLE LRE RLE LRE RLE LRE RLE LRE RLE LRE RLE LRE RLE LRE RLE LRE RLE LRE RLE LRE RLE LRE RLE LRE RLE LRE R EN AN | 1 1 1 1 1 1 1 1 1 1 1 1 1 1 1 1 1 1 1 1 1 1 1 1 1 1 1 1 1 1 1 1 1 1 1 1 1 1 1 1 1 1 1 1 1 1 1 1 1 1 1 1 1 1 1 1 1 1 1 1 1 1 1 1 1 1 1 1 1 1 1 1 1 1 1 1 1 1 1 1 1 1 1 1 1 1 1 1 1 1 1 1 1 1 1 1 1 1 1 1 1 1 1 1 1 1 1 1 1 1 1 1 1 1 1 1 1 1 1 1 1 1 1 1 1 1 1 1 125 126 126 | 0 1 2 3 4 5 6 7 8 9 10 11 12 13 14 15 16 17 18 19 20 21 22 23 24 25 26 27 28 29 30 31 32 33 34 35 36 37 38 39 40 41 42 43 44 45 46 47 48 49 50 51 52 53 54 55 56 57 58 59 60 61 62 63 64 65 66 67 68 69 70 71 72 73 74 75 76 77 78 79 80 81 82 83 84 85 86 87 88 89 90 91 92 93 94 95 96 97 98 99 100 101 102 103 104 105 106 107 108 109 110 111 112 113 114 115 116 117 118 119 120 121 122 123 124 125 126 127 128 130 129
BD2: 130 isolates, one inside the other, from the right | 1 | RLI RLI RLI RLI RLI RLI RLI RLI RLI RLI RLI RLI RLI RLI RLI RLI RLI RLI RLI RLI RLI RLI RLI RLI RLI RLI RLI RLI RLI RLI RLI RLI RLI RLI RLI RLI RLI RLI RLI RLI RLI RLI RLI RLI RLI RLI RLI RLI RLI RLI RLI RLI RLI RLI RLI RLI RLI RLI RLI RLI RLI RLI RLI RLI RLI RLI RLI RLI RLI RLI RLI RLI RLI RLI RLI RLI RLI RLI RLI RLI RLI RLI RLI RLI RLI RLI RLI RLI RLI RLI RLI RLI RLI RLI RLI RLI RLI RLI RLI RLI RLI RLI RLI RLI RLI RLI RLI RLI RLI RLI RLI RLI RLI RLI RLI RLI RLI RLI RLI RLI RLI RLI RLI RLI RLI RLI RLI RLI RLI RLI L PDI PDI PDI PDI PDI PDI PDI PDI PDI PDI PDI PDI PDI PDI PDI PDI PDI PDI PDI PDI PDI PDI PDI PDI PDI PDI PDI PDI PDI PDI PDI PDI PDI PDI PDI PDI PDI PDI PDI PDI PDI PDI PDI PDI PDI PDI PDI PDI PDI PDI PDI PDI PDI PDI PDI PDI PDI PDI PDI PDI PDI PDI PDI PDI PDI PDI PDI PDI PDI PDI PDI PDI PDI PDI PDI PDI PDI PDI PDI PDI PDI PDI PDI PDI PDI PDI PDI PDI PDI PDI PDI PDI PDI PDI PDI PDI PDI PDI PDI PDI PDI PDI PDI PDI PDI PDI PDI PDI PDI PDI PDI PDI PDI PDI PDI PDI PDI PDI PDI PDI PDI PDI PDI PDI PDI PDI PDI PDI PDI PDI R | 1 3 5 7 9 11 13 15 17 19 21 23 25 27 29 31 33 35 37 39 41 43 45 47 49 51 53 55 57 59 61 63 65 67 69 71 73 75 77 79 81 83 85 87 89 91 93 95 97 99 101 103 105 107 109 111 113 115 117 119 121 123 125 125 125 125 125 125 125 125 125 125 125 125 125 125 125 125 125 125 125 125 125 125 125 125 125 125 125 125 125 125 125 125 125 125 125 125 125 125 125 125 125 125 125 125 125 125 125 125 125 125 125 125 125 125 125 125 125 125 125 125 125 125 125 125 125 125 125 125 126 125 125 125 125 125 125 125 125 125 125 125 125 125 125 125 125 125 125 125 125 125 125 125 125 125 125 125 125 125 125 125 125 125 125 125 125 125 125 125 125 125 125 125 125 125 125 125 125 125 125 125 125 125 125 125 125 125 125 125 125 125 125 125 125 125 125 125 125 123 121 119 117 115 113 111 109 107 105 103 101 99 97 95 93 91 89 87 85 83 81 79 77 75 73 71 69 67 65 63 61 59 57 55 53 51 49 47 45 43 41 39 37 35 33 31 29 27 25 23 21 19 17 15 13 11 9 7 5 3 1 1 | 0 1 2 3 4 5 6 7 8 9 10 11 12 13 14 15 16 17 18 19 20 21 22 23 24 25 26 27 28 29 30 31 32 33 34 35 36 37 38 39 40 41 42 43 44 45 46 47 48 49 50 51 52 53 54 55 56 57 58 59 60 61 62 63 64 65 66 67 68 69 70 71 72 73 74 75 76 77 78 79 80 81 82 83 84 85 86 87 88 89 90 91 92 93 94 95 96 97 98 99 100 101 102 103 104 105 106 107 108 109 110 111 112 113 114 115 116 117 118 119 120 121 122 123 124 125 126 127 128 129 130 131 132 133 134 135 136 137 138 139 140 141 142 143 144 145 146 147 148 149 150 151 152 153 154 155 156 157 158 159 160 161 162 163 164 165 166 167 168 169 170 171 172 173 174 175 176 177 178 179 180 181 182 183 184 185 186 187 188 189 190 191 192 193 194 195 196 197 198 199 200 201 202 203 204 205 206 207 208 209 210 211 212 213 214 215 216 217 218 219 220 221 222 223 224 225 226 227 228 229 230 231 232 233 234 235 236 237 238 239 240 241 242 243 244 245 246 247 248 249 250 251 252 253 254 255 256 257 258 259 260 261
BD2: 128 isolates and embeddings in turn, from the right | 1 | LRI RLE LRI RLE LRI RLE LRI RLE LRI RLE LRI RLE LRI RLE LRI RLE LRI RLE LRI RLE LRI RLE LRI RLE LRI RLE LRI RLE LRI RLE LRI RLE LRI RLE LRI RLE LRI RLE LRI RLE LRI RLE LRI RLE LRI RLE LRI RLE LRI RLE LRI RLE LRI RLE LRI RLE LRI RLE LRI RLE LRI RLE LRI RLE LRI RLE LRI RLE LRI RLE LRI RLE LRI RLE LRI RLE LRI RLE LRI RLE LRI RLE LRI RLE LRI RLE LRI RLE LRI RLE LRI RLE LRI RLE LRI RLE LRI RLE LRI RLE LRI RLE LRI RLE LRI RLE LRI RLE LRI RLE LRI RLE LRI RLE LRI RLE LRI RLE LRI RLE LRI RLE LRI RLE LRI RLE LRI RLE EN PDI PDI PDF AN | 1 1 3 3 5 5 7 7 9 9 11 11 13 13 15 15 17 17 19 19 21 21 23 23 25 25 27 27 29 29 31 31 33 33 35 35 37 37 39 39 41 41 43 43 45 45 47 47 49 49 51 51 53 53 55 55 57 57 59 59 61 61 63 63 65 65 67 67 69 69 71 71 73 73 75 75 77 77 79 79 81 81 83 83 85 85 87 87 89 89 91 91 93 93 95 95 97 97 99 99 101 101 103 103 105 105 107 107 109 109 111 111 113 113 115 115 117 117 119 119 121 121 123 123 125 125 125 125 126 125 125 125 126 | 0 1 2 3 4 5 6 7 8 9 10 11 12 13 14 15 16 17 18 19 20 21 22 23 24 25 26 27 28 29 30 31 32 33 34 35 36 37 38 39 40 41 42 43 44 45 46 47 48 49 50 51 52 53 54 55 56 57 58 59 60 61 62 63 64 65 66 67 68 69 70 71 72 73 74 75 76 77 78 79 80 81 82 83 84 85 86 87 88 89 90 91 92 93 94 95 96 97 98 99 100 101 102 103 104 105 106 107 108 109 110 111 112 113 114 115 116 117 118 119 120 121 122 123 124 125 126 127 128 129 130 131 132
";
