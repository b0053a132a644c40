//! What functions come to: the worked examples, what looks something up, and what makes texts, lists and maps.
use crate::cases::{Case, all_told};
use crate::plans::Evaluated;
use std::alloc::AllocError;

const WORKED: &[Case] = &[
    (
        "{'str_replace':{'template':'a-ab-b','params':{'a':'1','ab':'2','b':'a'}}}",
        "'1-2-a'",
    ),
    ("{'list_join':[', ',['x',1,true,null]]}", "'x, 1, true, '"),
    ("{'str_split':[',','a,,b']}", "['a','','b']"),
    ("{'str_split':[',','a,b',2]}", "F02 []"),
    (
        "{'repeat':{'template':'%x%%y%','for_each':{'%x%':['a','b'],'%y%':[1,2]}}}",
        "['a1','a2','b1','b2']",
    ),
    (
        "{'digest':['md5','']}",
        "'d41d8cd98f00b204e9800998ecf8427e'",
    ),
    (
        "{'digest':['sha1','abc']}",
        "'a9993e364706816aba3e25717850c26c9cd0d89d'",
    ),
    (
        "{'digest':['sha256','abc']}",
        "'ba7816bf8f01cfea414140de5dae2223b00361a396177a9cb410ff61f20015ad'",
    ),
    ("{'map_merge':[{'a':1,'b':2},{'b':3}]}", "{'a':1,'b':3}"),
    (
        "{'map_replace':[{'k1':'v1','k2':'v2'},{'keys':{'k1':'K1'},'values':{'v2':'V2'}}]}",
        "{'K1':'v1','k2':'V2'}",
    ),
    (
        "{'list_concat_unique':[['a','b'],['b','c']]}",
        "['a','b','c']",
    ),
    ("{'filter':[['b'],['a','b','c','b']]}", "['a','c']"),
    ("{'contains':['b',['a','b']]}", "true"),
    (
        "{'str_replace_strict':{'template':'a','params':{'z':1}}}",
        "F04 []",
    ),
];

#[test]
fn worked_examples(rt: HostRuntime) -> Result<(), AllocError> {
    all_told(&rt, &Evaluated, WORKED)
}

const LOOKED_UP: &[Case] = &[
    ("{'get_param':'p'}", "'x'"),
    ("{'get_param':['p']}", "'x'"),
    ("{'get_param':['j','k',1,'m']}", "'v'"),
    ("{'get_param':['j','k','1']}", "''"),
    ("{'get_param':['j','k',-1]}", "''"),
    ("{'get_param':['j',{'get_param':'p'}]}", "''"),
    ("{'get_param':'q'}", "F01 []"),
    (
        "[{'get_param':['q',{'digest':['md4','']}]}]",
        "F01 [0,'get_param',1]",
    ),
    ("{'get_param':'call'}", "{'get_param':'p'}"),
    ("{'get_param':5}", "F01 []"),
    ("{'get_resource':'a'}", "'id-a'"),
    ("{'get_resource':'b'}", "null"),
    ("{'get_resource':'gone'}", "null"),
    ("{'get_attr':['gone']}", "null"),
    ("{'get_attr':['a','addr']}", "'1.2'"),
    ("{'get_attr':['a','ports',0,'ip']}", "'10'"),
    ("{'get_attr':['a','ports',1]}", "null"),
    ("{'get_attr':['a','none']}", "null"),
    ("{'get_attr':['b','addr']}", "null"),
    ("{'get_attr':['a']}", "{'addr':'1.2','ports':[{'ip':'10'}]}"),
    ("{'get_attr':['a',1]}", "F01 []"),
    ("{'get_file':'f'}", "'text'"),
    ("{'get_file':'g'}", "F01 []"),
    ("{'x':{'get_file':'g'}}", "F01 ['x']"),
    ("{'get_file':'f','x':1}", "{'get_file':'f','x':1}"),
];

#[test]
fn functions_look_up(rt: HostRuntime) -> Result<(), AllocError> {
    all_told(&rt, &Evaluated, LOOKED_UP)
}

const MADE: &[Case] = &[
    (
        "{'list_join':[1,['a'],null,['b',{'c':[]}]]}",
        "'a1b1{\\'c\\':[]}'",
    ),
    ("{'list_join':[null,['a']]}", "F01 []"),
    ("{'list_join':[',','a']}", "F01 []"),
    ("{'list_join':[',']}", "F01 []"),
    ("{'str_split':[1,'a1b',0]}", "'a'"),
    ("{'str_split':['','a']}", "F03 []"),
    ("{'str_split':['','a',-1]}", "F02 []"),
    ("{'str_split':['','a',0]}", "F03 []"),
    ("{'str_split':[',','a',null]}", "F02 []"),
    ("{'str_split':[',',[]]}", "F01 []"),
    ("{'str_split':[',',true]}", "['true']"),
    ("{'str_replace':{'template':5,'params':{'5':[1]}}}", "'[1]'"),
    ("{'str_replace':{'template':null,'params':{}}}", "F01 []"),
    ("{'str_replace':{'template':'a','params':[]}}", "F01 []"),
    ("{'str_replace':{'template':'a','params':{'':1}}}", "F03 []"),
    (
        "{'str_replace':{'template':'a','params':{'get_param':'j'}}}",
        "'a'",
    ),
    (
        "{'str_replace':{'template':'a','params':{'a':{'get_param':'call'}}}}",
        "'{\\'get_param\\':\\'p\\'}'",
    ),
    (
        "{'str_replace_strict':{'template':'a','params':{'a':1,'':2}}}",
        "F03 []",
    ),
    (
        "{'str_replace_strict':{'template':'ab','params':{'b':1,'ab':2}}}",
        "'2'",
    ),
    ("{'digest':['md4','']}", "F01 []"),
    ("{'digest':['md5',null]}", "F01 []"),
    (
        "{'map_merge':[null,{'b':1},{'a':2,'b':3}]}",
        "{'a':2,'b':3}",
    ),
    ("{'map_merge':[1]}", "F01 []"),
    ("{'map_merge':{'get_param':'j'}}", "F01 []"),
    (
        "{'map_replace':[{'a':1,'b':null},{'values':{'1':[],'':0}}]}",
        "{'a':[],'b':null}",
    ),
    (
        "{'map_replace':[{'a':1,'b':2},{'keys':{'a':'b'}}]}",
        "F05 []",
    ),
    (
        "{'map_replace':[{'a':1,'b':2},{'keys':{'a':'b','b':'a'}}]}",
        "{'a':2,'b':1}",
    ),
    ("{'map_replace':[{'a':1},{'keys':{'x':1}}]}", "F01 []"),
    ("{'map_replace':[{'a':1},{}]}", "F01 []"),
    ("{'map_replace':[{'a':1},{'keys':null}]}", "F01 []"),
    ("{'map_replace':[{'a':1},{'keys':{},'more':{}}]}", "F01 []"),
    ("{'map_replace':[[],{'keys':{}}]}", "F01 []"),
    (
        "{'list_concat':[['a'],null,['a',{'b':1}]]}",
        "['a','a',{'b':1}]",
    ),
    ("{'list_concat':[{}]}", "F01 []"),
    (
        "{'list_concat_unique':[[1,'1'],[1,[1],[1]]]}",
        "[1,'1',[1]]",
    ),
    ("{'filter':[null,[]]}", "F01 []"),
    ("{'contains':['','']}", "true"),
    ("{'contains':['b','abc']}", "true"),
    ("{'contains':['d','abc']}", "false"),
    ("{'contains':[1,'1']}", "F01 []"),
    ("{'contains':[null,null]}", "F01 []"),
    ("{'contains':[null,[null]]}", "true"),
    ("{'equals':[1,1]}", "{'equals':[1,1]}"),
    ("{'not':true}", "{'not':true}"),
    ("{'yaql':{'get_param':'p'}}", "{'yaql':'x'}"),
    ("{'Fn::Join':[{'get_param':'p'}]}", "{'Fn::Join':['x']}"),
];

#[test]
fn functions_make_values(rt: HostRuntime) -> Result<(), AllocError> {
    all_told(&rt, &Evaluated, MADE)
}
