ghost use Rattle.ygg_lex.specs.Rules.{FollowsRules, RulesAgree};

/// What the tokens of a text are, by a recursion over its bytes, is what the rules of tokens say one by one.
pub fn follows_rules()
    ensures follows { FollowsRules }
    ensures agree { RulesAgree }
{}
