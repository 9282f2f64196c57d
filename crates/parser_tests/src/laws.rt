// Calls of the laws on the grammar, on readers and on the trees that these give.

#[test]
fn readers_have_laws() {
    expr_parser::each_spelling_is_read();
    expr_parser::only_spellings_are_read();
    decl_parser::each_declaration_is_read();
    decl_parser::only_declarations_are_read();
    parser_laws::trees_are_read();
    parser_laws::one_tree();
}

#[test]
fn the_grammar_has_a_law() {
    capl_grammar::laws::sources_are_spelled_in_place();
}
